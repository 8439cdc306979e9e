// The bytes of the waiting terms.
ghost use Rattle.std.specs.Prelude.{take};
ghost use Rattle.saver.specs.Put.{Writes};
ghost use Rattle.saver.specs.Waiting.{frame_bytes, frames_bytes, FrameGiven, WaitingGiven};

use lent_frames::{LentFrame, pop};
use words::{move_within, store16};

// One waiting term: its stage, the file and the place of its last inner term, and its own goals, which lie further down in the work space.
pub fn write_frame(work: &mut [u8], to: usize, f: LentFrame) -> usize
    requires { FrameGiven work.old to f }
    ensures { Writes work.old to (frame_bytes work.old f) result work.new }
{
    let size = (f.count as usize) * 2;
    work[to] = f.stage as u8;
    work[to + 1] = (f.term / 65536) as u8;
    store16(work, to + 2, (f.term % 65536) as u16);
    store16(work, to + 4, f.count);
    move_within(work, f.goals as usize, to + 6, size);
    to + 6 + size
}

// The first so many lent frames, outermost first: the last one comes first.
pub fn write_waiting(work: &mut [u8], frames: &[LentFrame], n: usize, to: usize) -> usize
    requires { WaitingGiven work.old frames.now n to }
    ensures { Writes work.old to (frames_bytes work.old (take n frames.now)) result work.new }
{
    let mut next = to;
    for i in (0..n).rev() {
        let f = pop(frames, i);
        next = write_frame(work, next, f);
    }
    next
}
