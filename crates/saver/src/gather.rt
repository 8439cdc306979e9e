// The waiting terms of the machine gathered into lent frames, innermost first.
ghost use Rattle.std.specs.Prelude.{◌≡◌, ◌+◌, ◌≤◌, ◌<◌, length};
ghost use Rattle.frames.specs.Frames.{frame_at};
ghost use Rattle.saver.specs.Gather.{own_count_of, held_after, own_start, gathered_of, FrameFits, GatherGiven, Gathers};

use arities::layout::FRAMES_END;
use frames::{ALTERNATION_LEFT, SEQUENCE_RIGHT, TENSOR_LEFT, TENSOR_RIGHT, load_frame};
use lent_frames::{LentFrame, push};

// A waiting term, and how many goals of its list it holds with the terms inside it.
#[derive(Clone, Copy)]
pub struct Gathered {
    pub frame: LentFrame,
    pub inside: usize,
}

// How many of a waiting term's goals no term inside it holds.
#[tactic(auto, unfolding(crate::specs::Gather::own_count_of))]
fn own_count(kind: u16, count: u16, inside: usize) -> u16
    requires { (inside ≤ 65535) × (kind ≡ 6 → inside ≤ count) }
    ensures { result ≡ own_count_of kind count inside }
{
    match kind {
        TENSOR_LEFT | TENSOR_RIGHT => count,
        ALTERNATION_LEFT => count - (inside as u16),
        _ => 0,
    }
}

// How many goals of its list it holds, together with the terms inside it.
#[tactic(auto, unfolding(crate::specs::Gather::held_after))]
fn held_after(kind: u16, count: u16, inside: usize) -> usize
    requires { inside ≤ 65535 }
    ensures { result ≡ held_after kind count inside }
{
    match kind {
        TENSOR_LEFT => inside + (count as usize),
        ALTERNATION_LEFT => count as usize,
        SEQUENCE_RIGHT => 0,
        _ => inside,
    }
}

// Where its own goals begin; 0 if it has none, whatever its frame names.
#[tactic(auto, unfolding(crate::specs::Gather::own_start))]
fn own_start(own: u16, start: usize) -> u32
    requires { start < 4294967296 }
    ensures { result ≡ own_start own start }
{
    if own == 0 { 0 } else { start as u32 }
}

// The waiting term at a place of the work space.
pub fn gather_at(work: &[u8], at: usize, inside: usize) -> Gathered
    requires { (at + 18 < length work.now) × FrameFits (frame_at work.now at) inside }
    ensures { result ≡ gathered_of (frame_at work.now at) inside }
{
    let f = load_frame(work, at);
    let own = own_count(f.kind, f.count, inside);
    let held = held_after(f.kind, f.count, inside);
    let goals = own_start(own, f.start);
    Gathered {
        frame: LentFrame {
            term: (f.file as u32) * 65536 + (f.at as u32),
            goals,
            count: own,
            stage: f.kind,
        },
        inside: held,
    }
}

// All waiting terms from a place on, innermost first, and how many they are.
pub fn gather(work: &[u8], frames: &mut [LentFrame], top: usize, inside: usize) -> usize
    requires { GatherGiven work.now frames.old top inside }
    ensures { Gathers work.now frames.old top inside result frames.new }
{
    let mut at = top;
    let mut held = inside;
    let mut n: usize = 0;
    // The frames are a stack, walked outwards: no count.
    while at < FRAMES_END {
        let g = gather_at(work, at, held);
        n = push(frames, n, g.frame);
        held = g.inside;
        at += 19;
    }
    n
}
