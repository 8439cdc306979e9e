// The plan from which the term is written: each use of the flat file is looked up once, before a byte is written.
ghost use Rattle.std.specs.Prelude.{◌≡◌, ◌≢◌, ◌+◌, ◌≤◌, ◌<◌, length, get_or, MatchOption};
ghost use Rattle.words.specs.Word.{word};
ghost use Rattle.format.specs.Limits.{most_entries};
ghost use Rattle.format.specs.Values.{rule_name, goal};
ghost use Rattle.tables.specs.Tables.{Table};
ghost use Rattle.tables.specs.Standing.{TableStands};
ghost use Rattle.index.specs.Build.{RulesIndexed};
ghost use Rattle.hitac.specs.Forest.{premises_of};
ghost use Rattle.derivation.specs.Layout.{index_place};
ghost use Rattle.writer.specs.Plan.{plan_size, open_mark, Noted, Planned};
ghost use Rattle.writer.specs.Leaves.{Rest};

use derivation::layout::INDEX;
use format::tags::USE_TAG;
use format::values::{RuleName, value_at};
use index::lookup::find_rule;
use words::store16;

// The most entries of a flat file that is written.
pub const MOST_ENTRIES: usize = 2048;

// The bytes of the plan: three for each entry (docs/DECISIONS.md, C29b), where an array of enums would take four and pass the machine stack that docs/ENTRIES.md names.
pub const PLAN: usize = 3 * MOST_ENTRIES;

// The number that marks an open. It stands in a byte of the plan, so that it stays a number.
pub const OPEN: u8 = 255;

// The number of premises in the plan of an entry; none is that of an open.
pub fn premises_at(plan: &[u8], at: usize) -> Option<usize>
    requires { at + 2 < length plan.now }
    ensures { MatchOption result (get_or plan.now (at + 2) 0 ≡ open_mark) (λ n. (n ≡ get_or plan.now (at + 2) 0) × (n ≢ open_mark)) }
{
    let count = plan[at + 2];
    if count == OPEN {
        None
    } else {
        Some(usize::from(count))
    }
}

// The plan of an open, at a place.
fn plan_open(plan: &mut [u8; PLAN], at: usize)
    requires { at + 3 ≤ plan_size }
    ensures { Noted plan.old plan.new at (word plan.old at) open_mark }
{
    plan[at + 2] = OPEN;
}

// The plan of a use, at a place.
fn plan_use(plan: &mut [u8; PLAN], at: usize, name: RuleName, count: usize)
    requires { (at + 3 ≤ plan_size) × (count < 256) }
    ensures { Noted plan.old plan.new at name.0 count }
{
    store16(plan, at, name.0);
    plan[at + 2] = count as u8;
}

// The number of premises of the use at a place of the flat file.
fn premises_of(table: &[u8], rules: usize, work: &[u8], flat: &[u8], at: usize) -> usize
    requires at_in_bounds { at + 7 ≤ length flat.now }
    requires rules_indexed { ((T : Table) × TableStands table.now rules T) × RulesIndexed table.now rules work.now index_place }
    ensures value { (T : Table) → TableStands table.now rules T → result ≡ length (premises_of T (rule_name (word flat.now (at + 3))) (goal (word flat.now (at + 5)))) }
    ensures few { result ≤ 8 }
{
    let name = value_at(flat, at + 3);
    let goal = value_at(flat, at + 5);
    find_rule(table, rules, work, INDEX, name, goal).map_or(0, |found| found.count)
}

// The plan of the entries from a place of the flat file to its end.
pub fn plan_entries(
    table: &[u8],
    rules: usize,
    work: &[u8],
    flat: &[u8],
    from: usize,
    plan: &mut [u8; PLAN],
)
    requires rules_indexed { ((T : Table) × TableStands table.now rules T) × RulesIndexed table.now rules work.now index_place }
    requires entries_len_bound { (r : Rest flat.now from) × (length r.entries ≤ most_entries) }
    ensures { (T : Table) (r : Rest flat.now from) → TableStands table.now rules T → Planned T plan.new 0 r.entries }
{
    let mut at = from;
    let mut to: usize = 0;
    while at < flat.len() {
        if flat[at] == USE_TAG {
            let name = value_at(flat, at + 3);
            let count = premises_of(table, rules, work, flat, at);
            plan_use(plan, to, name, count);
            at += 7;
        } else {
            plan_open(plan, to);
            at += 5;
        }
        to += 3;
    }
}
