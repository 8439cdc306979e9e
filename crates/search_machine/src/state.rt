// The search's control state, and its moves.
ghost use Rattle.std.specs.Prelude.{◌≡◌, ◌+◌, ◌≤◌, ◌<◌, length};
ghost use Rattle.tactics.specs.Numbers.{put_header};
ghost use Rattle.outline.specs.Layout.{outline_end};
ghost use Rattle.search_machine.specs.Nodes.{put_node};
ghost use Rattle.search_machine.specs.Moves.{counted, failed, giving, noted, pushed, offered, linked, entered, holding, returned, Place};

use crate::layout::NODE_SIZE;
use crate::nodes::{Node, store_node};
use tactics::numbers::put_header;

// How a state stands: a term is to begin, or the last one ended, or it failed.
#[derive(Clone, Copy, PartialEq, Eq)]
pub enum Mode {
    Running,
    Gave,
    Lost,
}

// The next term to begin, by its place, its level, which is twice the number of levels that may begin below it, and one more if it stands in the job and not in the table, and its goals; or the goals that the last one gave.
// `link` is the node of the innermost term that waits, `choice` that of the last choice, 0 for none; all lie below `arena`. `outline` is the length of the outline.
// A level holds a flag beside a number, and 0 says that there is no node, since a node stores both so, in bytes of the work space.
#[derive(Clone, Copy)]
pub struct State {
    pub mode: Mode,
    pub level: u16,
    pub at: usize,
    pub start: usize,
    pub count: usize,
    pub link: usize,
    pub choice: usize,
    pub arena: usize,
    pub outline: usize,
    pub steps: usize,
}

impl State {
    // One step counted.
    pub fn counted(self) -> State
        requires { self.steps < 4096 }
        ensures { result ≡ counted self }
    {
        State {
            steps: self.steps + 1,
            ..self
        }
    }

    // The term fails.
    pub fn fail(self) -> State
        ensures { result ≡ failed self }
    {
        State {
            mode: Mode::Lost,
            ..self
        }
    }

    // The term ended with the goals that are held.
    pub fn give(self) -> State
        ensures { result ≡ giving self }
    {
        State {
            mode: Mode::Gave,
            ..self
        }
    }

    // A term that waited goes on.
    pub fn take_off(self, link: usize) -> State
        ensures { result ≡ linked self link }
    {
        State { link, ..self }
    }

    // A term is to begin.
    pub fn enter(self, level: u16, at: usize, start: usize, count: usize) -> State
        ensures { result ≡ entered self level at start count }
    {
        State {
            mode: Mode::Running,
            level,
            at,
            start,
            count,
            ..self
        }
    }

    // Other goals, which end at the top of the arena.
    pub fn hold(self, start: usize, count: usize, arena: usize) -> State
        ensures { result ≡ holding self start count arena }
    {
        State {
            start,
            count,
            arena,
            ..self
        }
    }

    // Back at a choice: what lies from it on is given up, and so is the outline behind its mark.
    pub fn return_to(self, link: usize, choice: usize, arena: usize, outline: usize) -> State
        ensures { result ≡ returned self link choice arena outline }
    {
        State {
            link,
            choice,
            arena,
            outline,
            ..self
        }
    }

    // A field of the hiproof, behind the outline so far.
    pub fn note(self, tag: u8, value: u16, work: &mut [u8]) -> State
        requires { (self.outline + 3 ≤ outline_end) × (outline_end ≤ length work.old) }
        ensures written { work.new ≡ put_header work.old self.outline tag value }
        ensures state { result ≡ noted self }
    {
        let outline = self.outline;
        put_header(work, outline, tag, value);
        State {
            outline: outline + 3,
            ..self
        }
    }

    // A term that waits.
    pub fn push(self, n: Node, work: &mut [u8]) -> State
        requires { Place work.old self n }
        ensures written { work.new ≡ put_node work.old self.arena n }
        ensures state { result ≡ pushed self }
    {
        let arena = self.arena;
        store_node(work, arena, n);
        State {
            link: arena,
            arena: arena + NODE_SIZE,
            ..self
        }
    }

    // A choice to go back to.
    pub fn offer(self, n: Node, work: &mut [u8]) -> State
        requires { Place work.old self n }
        ensures written { work.new ≡ put_node work.old self.arena n }
        ensures state { result ≡ offered self }
    {
        let arena = self.arena;
        store_node(work, arena, n);
        State {
            choice: arena,
            arena: arena + NODE_SIZE,
            ..self
        }
    }
}
