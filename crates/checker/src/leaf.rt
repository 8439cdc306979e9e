// The terms that have no inner term, on goals. One that cannot take its goals is refused at its own place: 34 for another number of goals, 20 for one goal without a rule.
ghost use Rattle.std.specs.Prelude.{◌≡◌, List, ℕ, ◌+◌, ◌*◌, ◌≤◌, ◌<◌, length};
ghost use Rattle.words.specs.Word.{word};
ghost use Rattle.format.specs.Values.{rule_name};
ghost use Rattle.format.specs.Terms.{Term, atomic, id, empty};
ghost use Rattle.rule_set.specs.Sets.{RuleSet};
ghost use Rattle.tables.specs.Tables.{Table};
ghost use Rattle.tables.specs.Standing.{TableStands};
ghost use Rattle.input_arities.specs.Layout.{stack_end, arities_end};
ghost use Rattle.walks.specs.Loops.{Leaf};
ghost use Rattle.checker.specs.Layout.{set_place};
ghost use Rattle.checker.specs.Acts.{LeafReady, Behind, Acts};

use crate::layout::SET;
use format::refusals::Cause;
use format::tags::{ATOMIC, EMPTY, ID};
use format::values::value_at;
use index::lookup::find_rule;
use input_arities::layout::ARITIES_END;
use rule_set::put;
use walks::state::{Ended, Next};
use words::{copy_in, load16, store16};

// An atomic term: one goal, with a rule of that name for it; gives the premises, and the rule is used. The goal is read before the premises may overwrite it. The table and the place of its first definition are handed on as the look-up takes them, so a struct of both would be no plainer.
fn take_rule(
    table: &[u8],
    first: usize,
    proof: &[u8],
    at: usize,
    work: &mut [u8],
    n: Next,
) -> Result<Ended, Cause>
    requires { ((T : Table) × TableStands table.now first T) × (at + 4 < length proof.now) × (n.low + 14 ≤ n.top) × (n.top + n.count * 2 ≤ stack_end) × (arities_end ≤ length work.old) × Behind table.now first work.old × ((A : List ℕ) × RuleSet work.old set_place A) }
    ensures { (T : Table) → TableStands table.now first T → Acts T (atomic (rule_name (word proof.now (at + 3)))) at work.old work.new n result }
{
    if n.count != 1 {
        return Err(Cause::GoalCountWrong);
    }
    let name = value_at(proof, at + 3);
    let goal = value_at(work, n.top);
    let Some(rule) = find_rule(table, first, work, ARITIES_END, name, goal) else {
        return Err(Cause::RuleMissing);
    };
    put(work, SET, rule.number);
    copy_in(work, n.low, table, rule.place, rule.count * 2);
    Ok(Ended {
        given: rule.count,
        uses: 1,
    })
}

// An id: one goal, given back.
fn keep_goal(work: &mut [u8], n: Next) -> Result<Ended, Cause>
    requires { (n.low ≤ n.top) × (n.top + n.count * 2 ≤ stack_end) × (arities_end ≤ length work.old) }
    ensures { (T : Table) (at : ℕ) → Acts T id at work.old work.new n result }
{
    if n.count != 1 {
        return Err(Cause::GoalCountWrong);
    }
    let goal = load16(work, n.top);
    store16(work, n.low, goal);
    Ok(Ended { given: 1, uses: 0 })
}

// Empty: no goal, and none given.
fn take_nothing(n: Next) -> Result<Ended, Cause>
    ensures { (T : Table) (at : ℕ) (w : List ℕ) → Acts T empty at w w n result }
{
    if n.count != 0 {
        return Err(Cause::GoalCountWrong);
    }
    Ok(Ended { given: 0, uses: 0 })
}

// A term that is no label, no sequence and no tensor takes its goals.
pub fn act(
    table: &[u8],
    first: usize,
    proof: &[u8],
    at: usize,
    work: &mut [u8],
    n: Next,
) -> Result<Ended, Cause>
    requires { ((T : Table) × TableStands table.now first T) × ((t : Term) × LeafReady proof.now at t work.old n) × Leaf proof.now at × Behind table.now first work.old × ((A : List ℕ) × RuleSet work.old set_place A) }
    ensures { (T : Table) (t : Term) → TableStands table.now first T → LeafReady proof.now at t work.old n → Acts T t at work.old work.new n result }
{
    match proof[at] {
        ATOMIC => take_rule(table, first, proof, at, work, n),
        ID => keep_goal(work, n),
        EMPTY => take_nothing(n),
        _ => Err(Cause::GoalCountWrong),
    }
}
