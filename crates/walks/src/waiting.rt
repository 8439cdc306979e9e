// The terms that wait, as frames of four bytes in the work space, and what a term that ended resumes.
ghost use Rattle.std.specs.Prelude.{◌≡◌, List, ◌+◌, ◌*◌, ◌≤◌, ◌<◌, length, drop};
ghost use Rattle.std.proofs.Math.Seq.{paste};
ghost use Rattle.walks.specs.Walks.{Act};
ghost use Rattle.walks.specs.Made.{WalkCode, Made};
ghost use Rattle.walks.specs.Shows.{put_frame};
ghost use Rattle.walks.specs.Loops.{Aim, Roomy, Gave, Steps};

use crate::layout::BEGAN;
use crate::state::{Ended, Next, Turn};
use format::refusals::{Cause, Refusal};
use format::tags::SEQUENCE;
use input_arities::layout::STACK_END;
use words::{load16, move_within, store16};

// Stores a frame: the place of the term that waits, and a value.
#[tactic(auto, unfolding(crate::specs::Shows::put_frame))]
pub fn push(work: &mut [u8], at: usize, place: usize, value: usize)
    requires { (at + 3 < length work.old) × (place ≤ 65535) × (value ≤ 65535) }
    ensures { work.new ≡ put_frame work.old at place value }
{
    store16(work, at, place as u16);
    store16(work, at + 2, value as u16);
}

// Moves n bytes from `from` up to `to`. Most sequences pass one value on, which takes no call; its last byte goes first, since the two places may overlap.
fn raise(work: &mut [u8], from: usize, to: usize, n: usize)
    requires { (from ≤ to) × (to + n ≤ length work.old) }
    ensures { work.new ≡ paste work.old to (drop from work.old) n }
{
    if n == 2 {
        work[to + 1] = work[from + 1];
        work[to] = work[from];
    } else {
        move_within(work, from, to, n);
    }
}

impl Next {
    // From the end of this term, at a place, to the next term to begin, or to the end of the walk. A sequence moves what its left term gave to the end of its values, and its right term takes it there; a tensor's right term takes the rest of its values; a tensor whose right term ended joins what both gave.
    pub fn resume(
        self,
        proof: &[u8],
        work: &mut [u8],
        at: usize,
        ended: Ended,
    ) -> Result<Turn, Refusal>
        requires { ((k : WalkCode) × (act : Act (Made k)) × (x : Aim (Made k)) × (A : List (Made k)) × Gave act x A proof.now work.old at self.low ended.given (self.top + self.count * 2) self.frames self.arity ended.uses) × Roomy proof.now work.old }
        ensures { (k : WalkCode) (act : Act (Made k)) (x : Aim (Made k)) (A : List (Made k)) → Gave act x A proof.now work.old at self.low ended.given (self.top + self.count * 2) self.frames self.arity ended.uses → Steps act x A proof.now work.old work.new at result }
    {
        let end = self.top + self.count * 2;
        let uses = ended.uses;
        let mut start = self.low;
        let mut count = ended.given;
        let mut last = self.frames;
        while STACK_END < last {
            let frame = last - 4;
            let place = load16(work, frame) as usize;
            if proof[place] == SEQUENCE {
                let top = end - count * 2;
                raise(work, start, top, count * 2);
                return Ok(Turn::Begin(Next {
                    at,
                    count,
                    low: start,
                    top,
                    frames: frame,
                    uses,
                    ..self
                }));
            }
            let value = load16(work, frame + 2) as usize;
            if value < BEGAN {
                store16(work, frame + 2, (BEGAN + start) as u16);
                return Ok(Turn::Begin(Next {
                    at,
                    count: (value - end) / 2,
                    low: start + count * 2,
                    top: end,
                    frames: last,
                    uses,
                    ..self
                }));
            }
            let first = value - BEGAN;
            count = (start + count * 2 - first) / 2;
            if 256 < count {
                return Err(Refusal::new(Cause::JoinedTooLong, place));
            }
            start = first;
            last = frame;
        }
        Ok(Turn::Ended(Ended { given: count, uses }))
    }
}
