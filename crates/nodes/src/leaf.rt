// The terms that have no inner term, on nodes.
ghost use Rattle.std.specs.Prelude.{◌≡◌, List, ℕ, ◌+◌, ◌*◌, ◌≤◌, ◌<◌, length};
ghost use Rattle.words.specs.Word.{word};
ghost use Rattle.format.specs.Values.{rule_name};
ghost use Rattle.format.specs.Terms.{Term, atomic, id, empty};
ghost use Rattle.format.specs.Standing.{Stands};
ghost use Rattle.format.specs.Goals.{goals_at};
ghost use Rattle.tables.specs.Tables.{Table};
ghost use Rattle.tables.specs.Standing.{TableStands};
ghost use Rattle.index.specs.Build.{RulesIndexed};
ghost use Rattle.hitac.specs.Hiproofs.{atomics};
ghost use Rattle.input_arities.specs.Layout.{arities_end};
ghost use Rattle.walks.specs.Loops.{Leaf};
ghost use Rattle.nodes.specs.Space.{most_nodes, cells_end, grown};
ghost use Rattle.nodes.specs.Leaves.{LeafRoom, NodeRoom, Fitting, Through, Takes};

use crate::cells::{CELLS, put_opens, put_range, put_use};
use format::refusals::Cause;
use format::tags::{ATOMIC, EMPTY, ID};
use format::values::{RuleName, value_at};
use index::lookup::find_rule;
use input_arities::layout::ARITIES_END;
use walks::state::Next;
use words::{load16, store16};

// What such a term comes to: the number of nodes that it gives, that of its uses, and the first node that is free behind it.
#[derive(Clone, Copy)]
pub struct Taken {
    pub given: usize,
    pub used: usize,
    pub next: usize,
}

// A node becomes a use; its premises, so many from a place of the table on, become new nodes, which are given.
fn grow(
    work: &mut [u8],
    node: usize,
    name: RuleName,
    next: usize,
    table: &[u8],
    place: usize,
    count: usize,
    low: usize,
)
    requires { (node < next) × (next + count ≤ most_nodes) × (place + count * 2 ≤ length table.now) × (low + count * 2 ≤ cells_end) × (cells_end ≤ length work.old) }
    ensures { work.new ≡ grown work.old node name.0 next (goals_at table.now place count) low }
{
    put_use(work, node, name, next, count);
    put_opens(work, next, table, place, count);
    put_range(work, low, next, count);
}

// An atomic term: one node, with a rule of that name for its goal; gives the premises. The table and the place of its first definition are handed on as the look-up takes them, so a struct of both would be no plainer.
fn use_rule(
    table: &[u8],
    first: usize,
    proof: &[u8],
    at: usize,
    work: &mut [u8],
    n: Next,
    next: usize,
) -> Result<Taken, Cause>
    requires { ((T : Table) × TableStands table.now first T) × RulesIndexed table.now first work.old arities_end × (at + 4 < length proof.now) × LeafRoom work.old n 1 × NodeRoom work.old n next }
    ensures { Through work.old (λ (v : List ℕ). (T : Table) → TableStands table.now first T → Takes T (atomic (rule_name (word proof.now (at + 3)))) at work.old v work.new n next result) }
{
    if n.count != 1 {
        return Err(Cause::GoalCountWrong);
    }
    let node = load16(work, n.top) as usize;
    let name = value_at(proof, at + 3);
    let goal = value_at(work, CELLS + node * 8);
    let Some(rule) = find_rule(table, first, work, ARITIES_END, name, goal) else {
        return Err(Cause::RuleMissing);
    };
    grow(work, node, name, next, table, rule.place, rule.count, n.low);
    Ok(Taken {
        given: rule.count,
        used: 1,
        next: next + rule.count,
    })
}

// An id: one node, given back.
fn keep_node(work: &mut [u8], n: Next, next: usize) -> Result<Taken, Cause>
    requires { LeafRoom work.old n 0 }
    ensures { (T : Table) (at : ℕ) → Takes T id at work.old work.old work.new n next result }
{
    if n.count != 1 {
        return Err(Cause::GoalCountWrong);
    }
    let node = load16(work, n.top);
    store16(work, n.low, node);
    Ok(Taken {
        given: 1,
        used: 0,
        next,
    })
}

// Empty: no node, and none given.
fn take_nothing(n: Next, next: usize) -> Result<Taken, Cause>
    ensures { (T : Table) (at : ℕ) (w : List ℕ) → Takes T empty at w w w n next result }
{
    if n.count != 0 {
        return Err(Cause::GoalCountWrong);
    }
    Ok(Taken {
        given: 0,
        used: 0,
        next,
    })
}

// A term that is no label, no sequence and no tensor takes its nodes.
pub fn act(
    table: &[u8],
    first: usize,
    proof: &[u8],
    at: usize,
    work: &mut [u8],
    n: Next,
    next: usize,
) -> Result<Taken, Cause>
    requires { ((T : Table) × (t : Term) × TableStands table.now first T × Stands proof.now at t × LeafRoom work.old n (atomics t) × Fitting T t at work.old n next) × RulesIndexed table.now first work.old arities_end × Leaf proof.now at }
    ensures { Through work.old (λ (v : List ℕ). (T : Table) (t : Term) → TableStands table.now first T → Stands proof.now at t → Takes T t at work.old v work.new n next result) }
{
    match proof[at] {
        ATOMIC => use_rule(table, first, proof, at, work, n, next),
        ID => keep_node(work, n, next),
        EMPTY => take_nothing(n, next),
        _ => Err(Cause::GoalCountWrong),
    }
}
