// The text of a term that stands in a file, field by field in byte order.
ghost use Rattle.std.specs.Prelude.{◌≡◌, false, List, ℕ, ◌+◌, ◌-◌, ◌≤◌, ◌<◌, length, get_or, set, take};
ghost use Rattle.std.proofs.lemmas.List.Edits.{sets};
ghost use Rattle.words.specs.Word.{word};
ghost use Rattle.format.specs.Terms.{Term};
ghost use Rattle.files.specs.Standing.{TermFileStands};
ghost use Rattle.notation.specs.Written.{written};
ghost use Rattle.text_writer.specs.Spelling.{label_text, leaf_text, leaf_size, sign_text};
ghost use Rattle.text_writer.specs.Stack.{Frame, stack_place, pair_byte, tag_in};
ghost use Rattle.text_writer.specs.Writing.{most_frames, writing_room, opened, into_pair, passed, closed, taken_up, Due, Plain, Rests, Settled, Going};

use crate::marks::{put_numbered, put_sign, put_two};
use crate::spelling::{byte_of, letter_of, wraps};
use crate::stack::{FOLLOWED, STACK, bracket_on_top, pair_byte, tag_in};
use format::tags::{EMPTY, ID, LABEL};
use notation::signs::{is_pair, rank_of};
use words::load16;

// How far the term is written: the place of the next field, the bytes written and those on the stack; and of the term at that place, how tight a sign must bind to need no brackets there, and whether a sign follows before the next closing bracket.
#[derive(Clone, Copy)]
pub struct Writing {
    pub at: usize,
    pub len: usize,
    pub top: usize,
    pub binds: usize,
    pub followed: bool,
}

impl Writing {
    // A bracket round the term.
    fn open_bracket(self, work: &mut [u8]) -> Writing
        requires { (self.len < stack_place) × (stack_place + self.top < length work.old) }
        ensures value { result ≡ opened self }
        ensures work_after { work.new ≡ set (set work.old self.len 40) (stack_place + self.top) 0 }
    {
        work[self.len] = b'(';
        work[STACK + self.top] = 0;
        Writing {
            len: self.len + 1,
            top: self.top + 1,
            binds: 0,
            followed: false,
            ..self
        }
    }

    // A pair: its left part comes next.
    fn begin_pair(self, tag: u8, work: &mut [u8]) -> Writing
        requires { (self.at ≤ 65535) × (tag < 64) × (stack_place + self.top < length work.old) }
        ensures value { result ≡ into_pair self tag }
        ensures work_after { work.new ≡ set work.old (stack_place + self.top) (pair_byte tag self.followed) }
    {
        work[STACK + self.top] = pair_byte(tag, self.followed);
        Writing {
            at: self.at + 3,
            top: self.top + 1,
            binds: rank_of(tag) + 1,
            followed: true,
            ..self
        }
    }

    // Behind a mark of n bytes, and behind so many bytes of the file.
    fn after(self, size: usize, n: usize) -> Writing
        requires { (self.at ≤ 65535) × (self.len ≤ 65535) × (size ≤ 65535) × (n ≤ 65535) }
        ensures { result ≡ passed self size n }
    {
        Writing {
            at: self.at + size,
            len: self.len + n,
            binds: 0,
            followed: false,
            ..self
        }
    }

    // A label: its contents come next.
    fn put_label(self, s: &[u8], work: &mut [u8]) -> Writing
        requires { (self.at + 5 ≤ length s.now) × (length s.now ≤ 65535) × (self.len < stack_place) × (stack_place + 7 ≤ length work.old) }
        ensures value { result ≡ passed self 5 (length (label_text (word s.now (self.at + 3)))) }
        ensures work_after { work.new ≡ sets work.old self.len (label_text (word s.now (self.at + 3))) }
    {
        let v = load16(s, self.at + 3) as usize;
        let n = put_numbered(b'[', v, self.len, work);
        work[self.len + n] = b']';
        self.after(5, n + 1)
    }

    // A leaf.
    fn put_leaf(self, tag: u8, s: &[u8], work: &mut [u8]) -> Writing
        requires { (self.at + leaf_size tag ≤ length s.now) × (length s.now ≤ 65535) × (self.len < stack_place) × (stack_place + 7 ≤ length work.old) }
        ensures value { result ≡ passed self (leaf_size tag) (length (leaf_text tag (word s.now (self.at + 3)))) }
        ensures work_after { work.new ≡ sets work.old self.len (leaf_text tag (word s.now (self.at + 3))) }
    {
        match tag {
            ID => {
                put_two(b'i', b'd', self.len, work);
                return self.after(3, 2);
            }
            EMPTY => {
                put_two(b'<', b'>', self.len, work);
                return self.after(3, 2);
            }
            _ => {
                let v = load16(s, self.at + 3) as usize;
                let n = put_numbered(letter_of(tag), v, self.len, work);
                self.after(5, n)
            }
        }
    }

    // The bracket on top of the stack.
    fn close_bracket(self, work: &mut [u8]) -> Writing
        requires { (self.len < stack_place) × (stack_place ≤ length work.old) × (0 < self.top) }
        ensures value { result ≡ closed self }
        ensures work_after { work.new ≡ set work.old self.len 41 }
    {
        work[self.len] = b')';
        Writing {
            len: self.len + 1,
            top: self.top - 1,
            binds: 0,
            followed: false,
            ..self
        }
    }

    // Every bracket that ends here.
    fn close_brackets(self, work: &mut [u8]) -> Writing
        requires { (s : List ℕ) × (whole : List ℕ) × (fs : List Frame) × Rests s whole work.old self fs }
        ensures { (s whole : List ℕ) (fs : List Frame) → Rests s whole work.old self fs → Settled s whole work.new self result false }
    {
        let mut y = self;
        while bracket_on_top(y.top, work) {
            y = y.close_bracket(work);
        }
        y
    }

    // The pair on top of the stack: its sign, and its right part comes next.
    fn take_up(self, work: &mut [u8]) -> Writing
        requires { (self.len + 3 ≤ stack_place) × (stack_place + self.top ≤ length work.old) × (0 < self.top) }
        ensures value { result ≡ taken_up self (get_or work.old (stack_place + (self.top - 1)) 0) }
        ensures work_after { work.new ≡ sets work.old self.len (sign_text (tag_in (get_or work.old (stack_place + (self.top - 1)) 0))) }
    {
        let top = self.top - 1;
        let byte = work[STACK + top];
        let tag = tag_in(byte);
        put_sign(byte_of(tag), self.len, work);
        Writing {
            len: self.len + 3,
            top,
            binds: rank_of(tag),
            followed: FOLLOWED <= byte,
            ..self
        }
    }

    // Behind a leaf: brackets that end here, and what then comes next.
    fn resume(self, work: &mut [u8]) -> Writing
        requires { (s : List ℕ) × (whole : List ℕ) × (fs : List Frame) × Rests s whole work.old self fs }
        ensures { (s whole : List ℕ) (fs : List Frame) → Rests s whole work.old self fs → Going s whole work.new result × (result.at ≡ self.at) }
    {
        let y = self.close_brackets(work);
        if y.top == 0 {
            return y;
        }
        y.take_up(work)
    }

    // A term that needs no brackets, or has them already: its first mark, and what comes next.
    fn enter(self, tag: u8, s: &[u8], work: &mut [u8]) -> Writing
        requires { Plain s.now work.old self tag }
        ensures { (p : Plain s.now work.old self tag) → Going s.now p.whole work.new result × (self.at < result.at) }
    {
        if is_pair(tag) {
            return self.begin_pair(tag, work);
        }
        if tag == LABEL {
            return self.put_label(s, work);
        }
        self.put_leaf(tag, s, work).resume(work)
    }

    // A term: the brackets it needs, its first mark, and what comes next.
    fn turn(self, s: &[u8], work: &mut [u8]) -> Writing
        requires { (whole : List ℕ) × (t : Term) × (fs : List Frame) × Due s.now whole work.old most_frames self t fs }
        ensures { (whole : List ℕ) (t : Term) (fs : List Frame) → Due s.now whole work.old most_frames self t fs → Going s.now whole work.new result × (self.at < result.at) }
    {
        let tag = s[self.at];
        if wraps(tag, self.binds, self.followed) {
            return self.open_bracket(work).enter(tag, s, work);
        }
        self.enter(tag, s, work)
    }
}

// The text of the file's term, at the beginning of the work space; tells its length.
pub fn write_term(s: &[u8], work: &mut [u8]) -> usize
    requires { (writing_room ≤ length work.old) × ((t : Term) × TermFileStands s.now t) }
    ensures { (t : Term) → TermFileStands s.now t → (result ≡ length (written t)) × (take result work.new ≡ written t) }
{
    let mut x = Writing {
        at: 0,
        len: 0,
        top: 0,
        binds: 0,
        followed: false,
    };
    // It goes on by the length of each field, so this is no count.
    while x.at < s.len() {
        x = x.turn(s, work);
    }
    x.len
}
