// The fields finished so far: of each waiting sequence or tensor whose right term runs, the field of its left term.
ghost use Rattle.std.specs.Prelude.{◌≡◌, ◌≤◌, length};
ghost use Rattle.frames.specs.Frames.{frame_at};
ghost use Rattle.saver.specs.Put.{Writes};
ghost use Rattle.saver.specs.Finished.{keeps_field, left_field, inside_of, FieldGiven, FinishedGiven, FinishedWritten};

use arities::layout::FRAMES_END;
use frames::{SEQUENCE_RIGHT, TENSOR_RIGHT, load_frame};
use words::move_within;

// A waiting term whose left term has ended.
#[tactic(auto, unfolding(crate::specs::Finished::keeps_field))]
fn keeps_field(kind: u16) -> bool
    ensures { result ≡ keeps_field kind }
{
    matches!(kind, SEQUENCE_RIGHT | TENSOR_RIGHT)
}

// Where the output inside the frame at a place begins: at the mark of the next frame inside, or at the output's end.
#[tactic(auto, unfolding(crate::specs::Finished::inside_of))]
fn inside_of(work: &[u8], at: usize, top: usize, out: usize) -> usize
    requires { ((at ≡ top → ⊥) → 19 ≤ at) × (at ≤ length work.now) }
    ensures { result ≡ inside_of work.now at top out }
{
    if at == top {
        return out;
    }
    load_frame(work, at - 19).mark
}

// The field that the frame at a place keeps, copied; it lies behind the header of the waiting term's own field.
fn write_field(work: &mut [u8], at: usize, end: usize, to: usize) -> usize
    requires { FieldGiven work.old at end to }
    ensures { Writes work.old to (left_field work.old (frame_at work.old at) end) result work.new }
{
    let f = load_frame(work, at);
    if !keeps_field(f.kind) {
        return to;
    }
    let from = f.mark + 3;
    let size = end - from;
    move_within(work, from, to, size);
    to + size
}

// The fields of all frames from a place on, outermost first.
pub fn write_finished(work: &mut [u8], top: usize, out: usize, to: usize) -> usize
    requires { FinishedGiven work.old top out to }
    ensures { FinishedWritten work.old top out to result work.new }
{
    let mut at = FRAMES_END;
    let mut next = to;
    // The frames are a stack, walked inwards: no count.
    while top < at {
        at -= 19;
        let end = inside_of(work, at, top, out);
        next = write_field(work, at, end, next);
    }
    next
}
