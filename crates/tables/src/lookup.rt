// Looking up a rule or a definition in the bytes of a table that was read. `first` is the place of its first definition.
ghost use Rattle.std.specs.Prelude.{◌≡◌, ◌+◌, ◌≤◌, length};
ghost use Rattle.tables.specs.Tables.{Table};
ghost use Rattle.tables.specs.Standing.{TableStands};
ghost use Rattle.tables.specs.Found.{is_carried, FindsRule, FindsBody};

use format::values::{Goal, RuleName, TacticNo, value_at};
use words::load16;

// What the search for a rule finds: the rule's number in the table, the place of its premises and their count.
#[derive(Clone, Copy)]
pub struct RuleFound {
    pub number: usize,
    pub place: usize,
    pub count: usize,
}

// Whether the rule at a place has that name and that goal.
#[tactic(auto, unfolding(crate::specs::Found::is_carried))]
pub fn carries(table: &[u8], at: usize, name: RuleName, goal: Goal) -> bool
    requires { at + 7 ≤ length table.now }
    ensures { result ≡ is_carried table.now at name goal }
{
    name == value_at(table, at + 3) && goal == value_at(table, at + 5)
}

// The first rule of that name and goal.
pub fn find_rule(table: &[u8], first: usize, name: RuleName, goal: Goal) -> Option<RuleFound>
    requires { (T : Table) × TableStands table.now first T }
    ensures { FindsRule table.now first name goal result }
{
    let mut at: usize = 0;
    let mut number: usize = 0;
    // A turn goes on by the length of its rule: no count of places, so no `for`.
    while at < first {
        let len = load16(table, at + 1) as usize;
        if carries(table, at, name, goal) {
            return Some(RuleFound {
                number,
                place: at + 7,
                count: len / 2 - 2,
            });
        }
        at += 3 + len;
        number += 1;
    }
    None
}

// The place of the body of the first definition of that tactic.
pub fn find_body(table: &[u8], first: usize, tactic: TacticNo) -> Option<usize>
    requires { (T : Table) × TableStands table.now first T }
    ensures { FindsBody table.now first tactic result }
{
    let mut at = first;
    // A turn goes on by the length of its definition: no count, so no `for`.
    while at < table.len() {
        if tactic == value_at(table, at + 3) {
            return Some(at + 5);
        }
        let len = load16(table, at + 1) as usize;
        at += 3 + len;
    }
    None
}
