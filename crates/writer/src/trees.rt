// The term of a forest: a tree is written through its forest of premises, and a forest through its trees (F3 of docs/DECISIONS.md).
// The two functions take and give back few values and keep few, so that each level takes little of the machine's stack: the plan is an array, whose reference is one word, and the length of what was written is read back from its header.
ghost use Rattle.std.specs.Prelude.{◌≡◌, ◌++◌, ◌+◌, ◌≤◌, ◌<◌, length, drop};
ghost use Rattle.words.specs.Word.{word};
ghost use Rattle.writer.specs.Fields.{header};
ghost use Rattle.writer.specs.Trees.{Ready, Done, term_of, end_of, lead};

use crate::fields::{field_end, write_atomic, write_header};
use crate::plan::{PLAN, premises_at};
use format::tags::{EMPTY, ID, SEQUENCE, TENSOR};
use format::values::value_at;

// The bytes before the first of n trees: the header of their tensor, and none before one tree.
#[tactic(auto, unfolding(crate::specs::Trees::lead))]
fn lead_of(n: usize) -> usize
    ensures { result ≡ lead n }
{
    if n == 1 { 0 } else { 3 }
}

// The header in front of two terms that were written behind it, the second of them from a place on.
fn close_pair(out: &mut [u8], tag: u8, from: usize)
    requires { (from + 3 ≤ length out.old) × (from + word out.old (from + 1) < 65536) }
    ensures { out.new ≡ header tag (from + word out.old (from + 1)) ++ drop 3 out.old }
{
    let end = field_end(out, from);
    write_header(out, tag, end - 3);
}

// The tree whose entries begin at a place of the plan: an open is id, a use atomic, or a sequence of atomic and the forest of its premises. Gives the place behind them.
#[cycle(write_forest_write_tree)]
fn write_tree(plan: &[u8; PLAN], at: usize, out: &mut [u8]) -> usize
    requires { Ready plan.now at 1 (length out.old) }
    ensures { (p : Ready plan.now at 1 (length out.old)) → Done (term_of p.trees) (end_of p.trees) result out.old out.new }
{
    match premises_at(plan, at) {
        None => {
            write_header(out, ID, 0);
            at + 3
        }
        Some(0) => {
            write_atomic(value_at(plan, at), out);
            at + 3
        }
        Some(count) => {
            write_atomic(value_at(plan, at), &mut out[3..]);
            let next = write_forest(plan, at + 3, count, &mut out[8..]);
            close_pair(out, SEQUENCE, 8);
            next
        }
    }
}

// The n trees whose entries begin at a place of the plan: none is empty, one is itself, more are a tensor of the first and the others. Gives the place behind them.
#[cycle(write_forest_write_tree)]
pub fn write_forest(plan: &[u8; PLAN], at: usize, n: usize, out: &mut [u8]) -> usize
    requires { Ready plan.now at n (length out.old) }
    ensures { (p : Ready plan.now at n (length out.old)) → Done (term_of p.trees) (end_of p.trees) result out.old out.new }
{
    if n == 0 {
        write_header(out, EMPTY, 0);
        return at;
    }
    let first = lead_of(n);
    let next = write_tree(plan, at, &mut out[first..]);
    if n == 1 {
        return next;
    }
    let from = field_end(out, 3);
    let end = write_forest(plan, next, n - 1, &mut out[from..]);
    close_pair(out, TENSOR, from);
    end
}
