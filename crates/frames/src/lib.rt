// The terms that wait, as frames of 19 bytes in work space.
// Document 01, "Running a tactic": what waits while a term is run.
#![tactic(auto)]

ghost use Rattle.std.specs.Prelude.{◌≡◌, ◌+◌, ◌<◌, length};
ghost use Rattle.frames.specs.Frames.{frame_at, put_frame};

use tactics::numbers::{load24, store24};
use words::{load16, store16};

// The kinds of a frame: which term waits, and for which of its inner terms. They are numbers and no enum, since load_frame promises the frame of any bytes.
pub const LABELLED: u16 = 1;

pub const SEQUENCE_LEFT: u16 = 2;

pub const SEQUENCE_RIGHT: u16 = 3;

pub const TENSOR_LEFT: u16 = 4;

pub const TENSOR_RIGHT: u16 = 5;

pub const ALTERNATION_LEFT: u16 = 6;

// A term that waits: its kind, the file and the place of its right term, and the goals that it keeps; and from the moment at which it began, where its field
// begins in the hiproof so far, the fields held, and the end of the goals.
#[derive(Clone, Copy)]
pub struct Frame {
    pub kind: u16,
    pub file: u16,
    pub at: u16,
    pub count: u16,
    pub start: usize,
    pub mark: usize,
    pub held: u16,
    pub arena: usize,
}

#[tactic(auto, unfolding(crate::specs::Frames::frame_at))]
pub fn load_frame(work: &[u8], at: usize) -> Frame
    requires { at + 18 < length work.now }
    ensures { result ≡ frame_at work.now at }
{
    Frame {
        kind: load16(work, at),
        file: load16(work, at + 2),
        at: load16(work, at + 4),
        count: load16(work, at + 6),
        start: load24(work, at + 8),
        mark: load24(work, at + 11),
        held: load16(work, at + 14),
        arena: load24(work, at + 16),
    }
}

#[tactic(auto, unfolding(crate::specs::Frames::put_frame))]
pub fn store_frame(work: &mut [u8], at: usize, f: Frame)
    requires { (at + 18 < length work.old) × (f.start < 16777216) × (f.mark < 16777216) × (f.arena < 16777216) }
    ensures { work.new ≡ put_frame work.old at f }
{
    store16(work, at, f.kind);
    store16(work, at + 2, f.file);
    store16(work, at + 4, f.at);
    store16(work, at + 6, f.count);
    store24(work, at + 8, f.start);
    store24(work, at + 11, f.mark);
    store16(work, at + 14, f.held);
    store24(work, at + 16, f.arena);
}
