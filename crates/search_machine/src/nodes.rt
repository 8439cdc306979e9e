// Nodes of 26 bytes in the arena: terms that wait, and choices to go back to.
ghost use Rattle.std.specs.Prelude.{◌≡◌, ◌+◌, ◌<◌, length};
ghost use Rattle.search_machine.specs.Nodes.{node_at, put_node, Small};

use tactics::numbers::{load32, store32};
use words::{load16, store16};

// The kinds of a node: a term that waits for one of its inner terms, or a choice. They are numbers, since load_node reads a node from any bytes, also from those of no kind.
pub const SEQUENCE_LEFT: u16 = 1;

pub const TENSOR_LEFT: u16 = 2;

pub const TENSOR_RIGHT: u16 = 3;

pub const OR_ELSE: u16 = 4;

pub const NEXT_SPLIT: u16 = 5;

// `link` is the node of the next term that waits, 0 for none. A term to begin later has its place and its level as in a state. `count` goals lie from
// `start` on. A choice has the one before it in `other`, 0 for none, and the length of the outline in `mark`; the next split has `left` goals in front of its `count`, and its
// right term at `right`.
#[derive(Clone, Copy)]
pub struct Node {
    pub kind: u16,
    pub level: u16,
    pub at: usize,
    pub link: usize,
    pub start: usize,
    pub count: usize,
    pub left: usize,
    pub mark: usize,
    pub right: usize,
    pub other: usize,
}

// A node in which nothing is filled in.
pub const BLANK: Node = Node {
    kind: 0,
    level: 0,
    at: 0,
    link: 0,
    start: 0,
    count: 0,
    left: 0,
    mark: 0,
    right: 0,
    other: 0,
};

// Inlined, so that a caller reads the fields alone that it asks for.
#[inline(always)]
pub fn load_node(work: &[u8], at: usize) -> Node
    requires { at + 25 < length work.now }
    ensures { result ≡ node_at work.now at }
{
    Node {
        kind: load16(work, at),
        level: load16(work, at + 2),
        at: load16(work, at + 4) as usize,
        count: load16(work, at + 6) as usize,
        link: load32(work, at + 8),
        start: load32(work, at + 12),
        left: load16(work, at + 16) as usize,
        mark: load16(work, at + 18) as usize,
        right: load16(work, at + 20) as usize,
        other: load32(work, at + 22),
    }
}

// Inlined, so that a node is built where it will stand.
#[inline(always)]
#[tactic(auto, unfolding(crate::specs::Nodes::put_node, crate::specs::Nodes::put_first, crate::specs::Nodes::put_places, crate::specs::Nodes::put_rest))]
pub fn store_node(work: &mut [u8], at: usize, n: Node)
    requires { (at + 25 < length work.old) × Small n }
    ensures { work.new ≡ put_node work.old at n }
{
    store16(work, at, n.kind);
    store16(work, at + 2, n.level);
    store16(work, at + 4, n.at as u16);
    store16(work, at + 6, n.count as u16);
    store32(work, at + 8, n.link);
    store32(work, at + 12, n.start);
    store16(work, at + 16, n.left as u16);
    store16(work, at + 18, n.mark as u16);
    store16(work, at + 20, n.right as u16);
    store32(work, at + 22, n.other);
}
