// The walk of a flat derivation over its entries.
ghost use Rattle.std.specs.Prelude.{◌≡◌, ◌+◌, ◌≤◌, length};
ghost use Rattle.words.specs.Word.{word};
ghost use Rattle.tables.specs.declared.repeats.Repeat.TheVariants.{Rule};
ghost use Rattle.index.specs.Keys.{is_key, digits};
ghost use Rattle.derivation.specs.Walks.{EntryInside, carried_goal, Ready, Walks};

use crate::layout::{INDEX, NODES, SET};
use crate::pending::Pending;
use format::tags::USE_TAG;
use format::values::{Goal, value_at};
use index::layout::HEADS;
use index::node::{head_of, link};
use index::seek::digits_of;
use rule_set::put;
use tables::lookup::carries;
use words::load16;

// Where the walk stopped, and what is pending there.
#[derive(Clone, Copy)]
pub struct Stop {
    pub place: usize,
    pub pending: Pending,
}

// The goal of the entry at a place: an open carries it behind its header, a use behind its rule name.
fn carried_goal(flat: &[u8], at: usize) -> Goal
    requires { EntryInside flat.now at }
    ensures { result ≡ carried_goal flat.now at }
{
    if flat[at] == USE_TAG {
        value_at(flat, at + 5)
    } else {
        value_at(flat, at + 3)
    }
}

// The digits that lead down the index to the rule of the use at a place.
fn digits_at(flat: &[u8], at: usize) -> u32
    requires { at + 7 ≤ length flat.now }
    ensures { result ≡ digits (word flat.now (at + 3)) (word flat.now (at + 5)) }
{
    digits_of(load16(flat, at + 3), load16(flat, at + 5))
}

// Whether the rule at one place has the name and the goal of the use at another.
fn is_rule_of(table: &[u8], rule: usize, flat: &[u8], at: usize) -> bool
    requires { (rule + 7 ≤ length table.now) × (at + 7 ≤ length flat.now) }
    ensures { result ≡ is_key Rule table.now (word flat.now (at + 3)) (word flat.now (at + 5)) rule }
{
    let name = value_at(flat, at + 3);
    let on = value_at(flat, at + 5);
    carries(table, rule, name, on)
}

// Walks over the entries of a flat file, behind its roots. The place is that of the first entry that does not apply, or the file's length. The rule of a use is looked up by the index; its node has the rule's number, which is put into the set of the rules used.
// Both loops stay in one function, the outer left by its label with the place as value: the form F1 of docs/DECISIONS.md. The way down the index stands here, and is no call of index::find_rule, for the same reason.
pub fn walk(table: &[u8], rules: usize, flat: &[u8], roots: usize, work: &mut [u8]) -> Stop
    requires { Ready table.now rules flat.now roots work.old }
    ensures { Walks table.now rules flat.now roots work.old work.new result }
{
    let mut at = 3 + roots * 2;
    let mut pending = Pending { lists: 0, roots };
    let place = 'walk: loop {
        if flat.len() <= at {
            break 'walk at;
        }
        let goal = carried_goal(flat, at);
        let Some(others) = pending.take(table, flat, roots, work, goal) else {
            break 'walk at;
        };
        pending = others;
        if flat[at] != USE_TAG {
            at += 5;
            continue;
        }
        let digits = digits_at(flat, at);
        let head = head_of(work, INDEX, digits);
        if head == 0 {
            break 'walk at;
        }
        let mut node = head - 1;
        let mut rest = digits / HEADS;
        let rule = loop {
            let place = load16(work, NODES + node * 5) as usize;
            if is_rule_of(table, place, flat, at) {
                break place;
            }
            node = link(work, NODES + node * 5, rest % 2);
            if node == 0 {
                break 'walk at;
            }
            rest = rest / 2;
        };
        put(work, SET, node);
        pending = pending.push(table, rule, work);
        at += 7;
    };
    Stop { place, pending }
}
