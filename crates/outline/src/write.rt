// A hiproof from its outline, from the last field to the first.
ghost use Rattle.std.specs.Prelude.{List, ℕ, ◌≤◌};
ghost use Rattle.format.specs.Terms.{Term};
ghost use Rattle.outline.specs.Memory.{Around};
ghost use Rattle.outline.specs.Built.{Built};
ghost use Rattle.outline.specs.Held.{Shown, FieldGiven};
ghost use Rattle.outline.specs.Whole.{Outlined, HiproofWritten};

use crate::fields::Held;
use format::tags::{ATOMIC, LABEL, SEQUENCE, TENSOR};
use words::load16;

// Where the stack of sizes ends, which comes down from there.
pub const SIZES_END: usize = 20480;

impl Held {
    // The field at a place of the outline, in front of the terms of the fields behind it.
    fn put_field(self, work: &mut [u8], at: usize) -> Held
        requires { (count end : ℕ) × FieldGiven work.old count end at self.front self.low self.last }
        ensures shown { (count end : ℕ) → FieldGiven work.old count end at self.front self.low self.last → (ts : List Term) → Built work.old count at ts → Shown work.new end ts result.front result.low result.last }
        ensures around { (result.front ≤ self.front) × Around result.front self.front work.old work.new }
    {
        match work[at] {
            ATOMIC => self.put_atomic(work, load16(work, at + 1)),
            LABEL => self.put_label(work, load16(work, at + 1)),
            tag @ (SEQUENCE | TENSOR) => self.put_pair(work, tag),
            tag => self.put_plain(work, tag),
        }
    }
}

// The hiproof whose outline the first `count` bytes of the work space are, written up to `end`; gives the place of its first byte.
pub fn write_outlined(work: &mut [u8], count: usize, end: usize) -> usize
    requires { (p : Term) × Outlined work.old count end p }
    ensures { (p : Term) → Outlined work.old count end p → HiproofWritten work.old work.new result end p }
{
    let mut held = Held {
        front: end,
        low: SIZES_END,
        last: 0,
    };
    for field in (0..count / 3).rev() {
        held = held.put_field(work, field * 3);
    }
    held.front
}
