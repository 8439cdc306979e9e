// A sequence or a tensor that begins: it waits for its left term, which is next. Its own place is handed over beside the state, which may name a label around it.
ghost use Rattle.std.specs.Prelude.{◌≡◌, List, ℕ, ◌+◌, get_or, Ok};
ghost use Rattle.walks.specs.Walks.{Act};
ghost use Rattle.walks.specs.Made.{WalkCode, Made};
ghost use Rattle.walks.specs.Loops.{Aim, Roomy, Begins, placed, Steps};

use crate::state::{Next, Turn};
use crate::waiting::push;
use format::refusals::{Cause, Refusal};
use words::load16;

impl Next {
    // A sequence's left term takes all of its values.
    pub fn begin_sequence(self, work: &mut [u8], at: usize) -> Turn
        requires { (k : WalkCode) × (act : Act (Made k)) × (x : Aim (Made k)) × (A : List (Made k)) × (s : List ℕ) × Begins act x A s work.old (placed self at) × Roomy s work.old × (get_or s at 0 ≡ 19) }
        ensures { (k : WalkCode) (act : Act (Made k)) (x : Aim (Made k)) (A : List (Made k)) (s : List ℕ) → Begins act x A s work.old (placed self at) → Roomy s work.old → get_or s at 0 ≡ 19 → Steps act x A s work.old work.new (at + 1) (Ok result) }
    {
        push(work, self.frames, at, 0);
        Turn::Begin(Next {
            at: at + 3,
            frames: self.frames + 4,
            ..self
        })
    }

    // A tensor's left term takes as many of its values as its arity, which was noted.
    pub fn begin_tensor(self, work: &mut [u8], at: usize) -> Result<Turn, Refusal>
        requires { (k : WalkCode) × (act : Act (Made k)) × (x : Aim (Made k)) × (A : List (Made k)) × (s : List ℕ) × Begins act x A s work.old (placed self at) × Roomy s work.old × (get_or s at 0 ≡ 20) }
        ensures { (k : WalkCode) (act : Act (Made k)) (x : Aim (Made k)) (A : List (Made k)) (s : List ℕ) → Begins act x A s work.old (placed self at) → Roomy s work.old → get_or s at 0 ≡ 20 → Steps act x A s work.old work.new (at + 1) result }
    {
        let share = load16(work, self.arity) as usize;
        if self.count < share {
            return Err(Refusal::new(Cause::GoalsTooFew, at));
        }
        push(work, self.frames, at, self.top + self.count * 2);
        Ok(Turn::Begin(Next {
            at: at + 3,
            count: share,
            frames: self.frames + 4,
            arity: self.arity + 2,
            ..self
        }))
    }
}
