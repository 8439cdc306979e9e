// A field in front of the terms that are written, for each kind of field.
ghost use Rattle.std.specs.Prelude.{◌≡◌, ◌+◌, ◌≤◌, ◌<◌, length};
ghost use Rattle.words.specs.Word.{word, put_word};
ghost use Rattle.tactics.specs.Numbers.{put_header};
ghost use Rattle.outline.specs.Memory.{put_valued};

use format::tags::{ATOMIC, LABEL};
use tactics::numbers::put_header;
use words::{load16, store16};

// The terms that are written: where the first begins, the stack of sizes, and the size of the first, which is not on the stack.
#[derive(Clone, Copy)]
pub struct Held {
    pub front: usize,
    pub low: usize,
    pub last: u16,
}

impl Held {
    // A field without contents: one term more, so that the size held so far goes on the stack.
    pub fn put_plain(self, work: &mut [u8], tag: u8) -> Held
        requires { (3 ≤ self.front) × (self.front ≤ length work.old) × (2 ≤ self.low) × (self.low ≤ length work.old) }
        ensures written { work.new ≡ put_word (put_header work.old result.front tag 0) result.low self.last }
        ensures held { (result.front + 3 ≡ self.front) × (result.low + 2 ≡ self.low) × (result.last ≡ 3) }
    {
        let front = self.front - 3;
        let low = self.low - 2;
        put_header(work, front, tag, 0);
        store16(work, low, self.last);
        Held {
            front,
            low,
            last: 3,
        }
    }

    // The use of a rule, likewise.
    pub fn put_atomic(self, work: &mut [u8], value: u16) -> Held
        requires { (5 ≤ self.front) × (self.front ≤ length work.old) × (2 ≤ self.low) × (self.low ≤ length work.old) }
        ensures written { work.new ≡ put_word (put_valued work.old result.front 16 2 value) result.low self.last }
        ensures held { (result.front + 5 ≡ self.front) × (result.low + 2 ≡ self.low) × (result.last ≡ 5) }
    {
        let front = self.front - 5;
        let low = self.low - 2;
        put_header(work, front, ATOMIC, 2);
        store16(work, front + 3, value);
        store16(work, low, self.last);
        Held {
            front,
            low,
            last: 5,
        }
    }

    // A label takes the first term.
    pub fn put_label(self, work: &mut [u8], value: u16) -> Held
        requires { (5 ≤ self.front) × (self.front ≤ length work.old) × (self.last + 5 < 65536) }
        ensures written { work.new ≡ put_valued work.old result.front 18 (self.last + 2) value }
        ensures held { (result.front + 5 ≡ self.front) × (result.low ≡ self.low) × (result.last ≡ self.last + 5) }
    {
        let front = self.front - 5;
        let len = self.last + 2;
        put_header(work, front, LABEL, len);
        store16(work, front + 3, value);
        Held {
            front,
            last: len + 3,
            ..self
        }
    }

    // A sequence or a tensor takes the first two terms.
    pub fn put_pair(self, work: &mut [u8], tag: u8) -> Held
        requires { (3 ≤ self.front) × (self.front ≤ length work.old) × (self.low + 2 ≤ length work.old) × (self.last + word work.old self.low + 3 < 65536) }
        ensures written { work.new ≡ put_header work.old result.front tag (self.last + word work.old self.low) }
        ensures held { (result.front + 3 ≡ self.front) × (result.low ≡ self.low + 2) × (result.last ≡ self.last + word work.old self.low + 3) }
    {
        let front = self.front - 3;
        let right = load16(work, self.low);
        let len = self.last + right;
        put_header(work, front, tag, len);
        Held {
            front,
            low: self.low + 2,
            last: len + 3,
        }
    }
}
