// The arities of the left terms of tensors, without recursion and without a stack: the fields are linked backwards in two bytes of the work space for each, then each gets its own arity from the last to the first, then those of the tensors' left terms are listed in order. The two bytes lie where the stacks will be.
#![tactic(auto)]

pub mod layout;

ghost use Rattle.std.specs.Prelude.{◌≡◌, List, ℕ, ◌+◌, ◌≤◌, ◌<◌, length};
ghost use Rattle.words.specs.Word.{word, put_word};
ghost use Rattle.words.specs.Kept.{Kept};
ghost use Rattle.format.specs.Terms.{Term, size};
ghost use Rattle.format.specs.Standing.{Stands};
ghost use Rattle.hitac.specs.Hiproofs.{input_arity};
ghost use Rattle.input_arities.specs.Layout.{stack_end};
ghost use Rattle.input_arities.specs.Arities.{Noted};
ghost use Rattle.input_arities.specs.Threads.{slot, width, after, Own, Owns, Room, Threads, ListedHere, Listable, Lists};

use crate::layout::FRAMES_END;
use format::tags::{ATOMIC, ID, LABEL, SEQUENCE, TENSOR};
use words::{load16, store16};

// Notes a value in the two bytes of the field at a place.
#[tactic(auto, unfolding(crate::specs::Threads::slot))]
fn note(work: &mut [u8], at: usize, value: usize)
    requires { (slot at + 1 < length work.old) × (value ≤ 65535) }
    ensures { work.new ≡ put_word work.old (slot at) value }
{
    store16(work, at / 3 * 2, value as u16);
}

// The value that was noted for the field at a place.
#[tactic(auto, unfolding(crate::specs::Threads::slot))]
fn noted(work: &[u8], at: usize) -> usize
    requires { slot at + 1 < length work.now }
    ensures { result ≡ word work.now (slot at) }
{
    load16(work, at / 3 * 2) as usize
}

// The place of the next field.
fn next_at(s: &[u8], at: usize) -> usize
    requires { (t : Term) × Stands s.now at t × (at + size t ≤ 65535) }
    ensures { (t : Term) → Stands s.now at t → result ≡ at + width t }
{
    match s[at] {
        LABEL => at + 5,
        SEQUENCE | TENSOR => at + 3,
        _ => at + 3 + load16(s, at + 1) as usize,
    }
}

// The place behind the first inner term of the field at a place.
fn second_at(s: &[u8], at: usize) -> usize
    requires { at + 5 < length s.now }
    ensures { result ≡ at + 6 + word s.now (at + 4) }
{
    at + 6 + load16(s, at + 4) as usize
}

// The arity of the term at a place, where those of its inner terms are noted.
fn arity_of(s: &[u8], at: usize, work: &[u8]) -> usize
    requires { (t : Term) × (g : List Term) × Stands s.now at t × Owns work.now (at + width t) (after t g) × (slot (at + size t) ≤ length work.now) × (at + size t ≤ 65535) }
    ensures { (t : Term) (g : List Term) → Stands s.now at t → Owns work.now (at + width t) (after t g) → result ≡ input_arity t }
{
    match s[at] {
        SEQUENCE => noted(work, at + 3),
        TENSOR => noted(work, at + 3) + noted(work, second_at(s, at)),
        ATOMIC | ID | LABEL => 1,
        _ => 0,
    }
}

// Lists the arity of a tensor's left term, and gives the next place of the list.
fn list_one(s: &[u8], at: usize, work: &mut [u8], next: usize) -> usize
    requires { (t : Term) × (g : List Term) × Listable s.now at work.old next t g }
    ensures { (t : Term) (g : List Term) → Listable s.now at work.old next t g → ListedHere work.new next t result × Kept work.old work.new next result }
{
    if s[at] != TENSOR {
        return next;
    }
    let left = noted(work, at + 3);
    store16(work, next, left as u16);
    next + 2
}

// The fields of a term, from its own at `at` to the place `end` behind the last.
#[derive(Clone, Copy)]
struct Fields<'a> {
    s: &'a [u8],
    at: usize,
    end: usize,
}

impl<'a> Fields<'a> {
    // Links each field to the one before it, and gives the last.
    fn link(&self, work: &mut [u8]) -> usize
        requires { (t : Term) × Room self.now.s.now self.now.at self.now.end work.old t }
        ensures { (t : Term) → Room self.now.s.now self.now.at self.now.end work.old t → Threads self.now.at self.now.end t work.old work.new result }
    {
        let mut place = self.at;
        let mut next = next_at(self.s, place);
        while next != self.end {
            note(work, next, place);
            place = next;
            next = next_at(self.s, place);
        }
        place
    }

    // Each field gets its own arity, from the last to the first.
    fn settle(&self, last: usize, work: &mut [u8])
        requires { (t : Term) × (w : List ℕ) × Room self.now.s.now self.now.at self.now.end work.old t × Threads self.now.at self.now.end t w work.old last }
        ensures { (t : Term) (w : List ℕ) → Room self.now.s.now self.now.at self.now.end work.old t → Threads self.now.at self.now.end t w work.old last → Own work.new self.now.at t × Kept work.old work.new 0 stack_end }
    {
        let mut place = last;
        while place != self.at {
            let before = noted(work, place);
            let arity = arity_of(self.s, place, work);
            note(work, place, arity);
            place = before;
        }
        let arity = arity_of(self.s, self.at, work);
        note(work, self.at, arity);
    }

    // Lists the arities of the left terms of all tensors, from the first field to the last.
    fn list(&self, work: &mut [u8])
        requires { (t : Term) × Room self.now.s.now self.now.at self.now.end work.old t × Own work.old self.now.at t }
        ensures { (t : Term) → Room self.now.s.now self.now.at self.now.end work.old t → Own work.old self.now.at t → Lists work.old work.new t }
    {
        let mut place = self.at;
        let mut next = FRAMES_END;
        while place < self.end {
            next = list_one(self.s, place, work, next);
            place = next_at(self.s, place);
        }
    }
}

// The arities of the left terms of all tensors of the term at a place, listed in the order in which the walk begins them.
pub fn note_arities(s: &[u8], at: usize, work: &mut [u8])
    requires { (t : Term) × Room s.now at (at + size t) work.old t }
    ensures { (t : Term) → Room s.now at (at + size t) work.old t → Noted work.old work.new t }
{
    let fields = Fields {
        s,
        at,
        end: at + 3 + load16(s, at + 1) as usize,
    };
    let last = fields.link(work);
    fields.settle(last, work);
    fields.list(work);
}
