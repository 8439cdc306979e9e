// The walk of a hiproof over its goals; the rules that it uses are put into the set.
ghost use Rattle.std.specs.Prelude.{◌≡◌, [], length};
ghost use Rattle.format.specs.Terms.{Term};
ghost use Rattle.rule_set.specs.Sets.{RuleSet};
ghost use Rattle.tables.specs.Tables.{Table};
ghost use Rattle.tables.specs.Standing.{TableStands};
ghost use Rattle.walks.specs.Made.{overGoals};
ghost use Rattle.walks.specs.Loops.{Roomy};
ghost use Rattle.checker.specs.Layout.{set_place};
ghost use Rattle.checker.specs.Acts.{goal_act, Behind};
ghost use Rattle.checker.specs.Walks.{Ready, goals_ready, Walks};

use crate::leaf::act;
use format::refusals::{Cause, Refusal};
use walks::leaves::Leaves;
use walks::state::{Ended, Next};
use walks::walk::walk as walk_leaves;

// The goals of a walk by the rules of a table.
#[derive(Drop)]
struct Goals<'a> {
    table: &'a [u8],
    first: usize,
}

impl<'a> Leaves for Goals<'a> {
    ghost code = { overGoals };

    ghost acts = { goal_act };

    ghost ready = { λ m. goals_ready m.table.now m.first };

    fn act(&mut self, proof: &[u8], at: usize, work: &mut [u8], n: Next) -> Result<Ended, Cause> {
        act(self.table, self.first, proof, at, work, n)
    }
}

// The term at a place takes the goals at the end of the stacks, as many as count says, and puts those that it gives from 0 on. The rules that it uses are put into the set, which is empty.
pub fn walk(
    table: &[u8],
    first: usize,
    proof: &[u8],
    at: usize,
    work: &mut [u8],
    count: usize,
) -> Result<Ended, Refusal>
    requires { ((T : Table) × TableStands table.now first T) × ((t : Term) × Ready proof.now at t work.old count) × Roomy proof.now work.old × Behind table.now first work.old × RuleSet work.old set_place [] }
    ensures { (T : Table) (t : Term) → TableStands table.now first T → Ready proof.now at t work.old count → Walks T t at (length proof.now) work.old work.new count result }
{
    let mut goals = Goals { table, first };
    walk_leaves(&mut goals, proof, at, work, count)
}
