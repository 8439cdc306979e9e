// The arities of tactics: of a term, given those of the defined tactics in work space.
ghost use Rattle.std.specs.Prelude.{◌≡◌, ℕ, ◌+◌, ◌≤◌, ◌<◌, length};
ghost use Rattle.std.proofs.Math.Option.{Option};
ghost use Rattle.format.specs.declared.values.TacticNo.{TacticNo};
ghost use Rattle.format.specs.Values.{tactic_no};
ghost use Rattle.format.specs.Terms.{Term, size};
ghost use Rattle.format.specs.Standing.{Stands};
ghost use Rattle.evaluation.specs.TacticArity.{arity_in};
ghost use Rattle.arities.specs.Layout.{space_end};
ghost use Rattle.arities.specs.Arities.{arity_code, ArityTable, Pair};

use crate::codes::{common, sum};
use crate::layout::FRAMES_END;
use format::tags::{ALTERNATION, DEFINED, EMPTY, SEQUENCE, TENSOR};
use format::values::{TacticNo, value_at};
use words::load16;

// The arity of a defined tactic.
fn known_arity(tactic: TacticNo, work: &[u8]) -> u16
    requires { space_end ≤ length work.now }
    ensures { (known : TacticNo → Option ℕ) → ArityTable work.now known → result ≡ arity_code (known (tactic_no tactic.0)) }
{
    load16(work, FRAMES_END + tactic.0 as usize * 2)
}

// Where the second of two inner terms stands.
pub fn right_of(src: &[u8], at: usize) -> u16
    requires { (length src.now < 65536) × ((t : Term) × (u : Term) × Pair src.now at t u) }
    ensures { (t u : Term) → Pair src.now at t u → result ≡ at + 3 + size t }
{
    (at + 6 + load16(src, at + 4) as usize) as u16
}

// The arity of the term that stands at a place.
pub fn arity_of(src: &[u8], at: usize, work: &[u8]) -> u16
    requires { (length src.now < 65536) × (space_end ≤ length work.now) × ((t : Term) × Stands src.now at t) }
    ensures { (known : TacticNo → Option ℕ) (t : Term) → ArityTable work.now known → Stands src.now at t → result ≡ arity_code (arity_in known t) }
{
    match src[at] {
        EMPTY => 1,
        DEFINED => known_arity(value_at(src, at + 3), work),
        SEQUENCE => arity_of(src, at + 3, work),
        TENSOR => {
            let left = arity_of(src, at + 3, work);
            let right = arity_of(src, right_of(src, at) as usize, work);
            sum(left, right)
        }
        ALTERNATION => {
            let left = arity_of(src, at + 3, work);
            let right = arity_of(src, right_of(src, at) as usize, work);
            common(left, right)
        }
        _ => 2,
    }
}
