// The arities of the defined tactics: found by rounds over the definitions, as many as there are definitions or until a round changes nothing.
ghost use Rattle.std.specs.Prelude.{◌≡◌, ◌≤◌, length};
ghost use Rattle.arities.specs.Layout.{space_end};
ghost use Rattle.arities.specs.Rounds.{Updated, RoundGiven, Rounded, FillGiven, Settled, Cleared, Filled};

use crate::arity::arity_of;
use crate::layout::{FRAMES_END, SPACE_END};
use format::values::{TacticNo, value_at};
use words::{clear_part, load16, store16};

// Stores the arity of a tactic; whether it was another before.
fn update(tactic: TacticNo, arity: u16, work: &mut [u8]) -> bool
    requires { space_end ≤ length work.old }
    ensures { Updated work.old tactic.0 arity work.new result }
{
    let place = FRAMES_END + tactic.0 as usize * 2;
    if load16(work, place) == arity {
        return false;
    }
    store16(work, place, arity);
    true
}

// One round: the arity of every definition is found anew, from the arities so far; whether one changed.
fn round(table: &[u8], first: usize, work: &mut [u8]) -> bool
    requires { RoundGiven table.now first work.old }
    ensures { Rounded table.now first work.old work.new result }
{
    let mut at = first;
    let mut changed = false;
    while at < table.len() {
        let len = load16(table, at + 1) as usize;
        let arity = arity_of(table, at + 5, work);
        if update(value_at(table, at + 3), arity, work) {
            changed = true;
        }
        at += 3 + len;
    }
    changed
}

// No arity is known.
fn clear_arities(work: &mut [u8])
    requires { space_end ≤ length work.old }
    ensures { Cleared work.old work.new }
{
    clear_part(work, FRAMES_END, SPACE_END - FRAMES_END);
}

// Rounds until one changes nothing, at most as many as there are definitions.
#[tactic(auto, using(crate::proofs::FillLaws::fill_start, crate::proofs::FillLaws::round_given, crate::proofs::FillLaws::fill_next, crate::proofs::FillLaws::fill_settled))]
fn settle_arities(table: &[u8], first: usize, definitions: usize, work: &mut [u8])
    requires { FillGiven table.now first definitions work.old }
    ensures { Settled table.now first definitions work.old work.new }
{
    for _ in 0..definitions {
        if !round(table, first, work) {
            return;
        }
    }
}

// The arities of all defined tactics of a table.
pub fn fill_arities(table: &[u8], first: usize, definitions: usize, work: &mut [u8])
    requires { FillGiven table.now first definitions work.old }
    ensures { Filled table.now first definitions work.old work.new }
{
    clear_arities(work);
    settle_arities(table, first, definitions, work);
}
