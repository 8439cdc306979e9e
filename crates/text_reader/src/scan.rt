// The scan of a text, mark by mark: 36, 37 and 5, and the list of its marks.
ghost use Rattle.std.specs.Prelude.{◌≡◌, true, false, ℕ, ◌+◌, ◌*◌, ◌≤◌, ◌<◌, IfOk, length, get_or, set};
ghost use Rattle.notation.specs.MarksIn.{marks_in};
ghost use Rattle.notation.specs.Scans.{digit_more, start, scan};
ghost use Rattle.text_reader.specs.MarkList.{MarksStand};
ghost use Rattle.text_reader.specs.Shapes.{scan_shape};
ghost use Rattle.text_reader.specs.Places.{Ready, After, Opened, Closed, completed, NumeralRead, NumberTold, LeafByte, LeafTag, TwoBytes, SignTag};

use format::refusals::{Cause, Refusal};
use format::tags::{ALTERNATION, ASSERTION, ATOMIC, DEFINED, EMPTY, ID, LABEL, SEQUENCE, TENSOR};
use words::store16;

// The numbers of the brackets in the list of marks; a mark that makes a field has the field's tag.
pub const CLOSING: u8 = 0;

pub const OPENING: u8 = 1;

const MOST_FIELDS: u32 = 4096;

const MOST_VALUE: usize = 65535;

// What the scan comes to: the number of marks and the bytes of the term.
#[derive(Clone, Copy)]
pub struct Scanned {
    pub count: usize,
    pub size: usize,
}

// Where the scan stands between two marks. It is made anew from its numbers at each mark; a copy changed in place costs more.
#[derive(Clone, Copy)]
pub struct ScanState {
    pub at: usize,
    // An operand is due; otherwise one was read.
    pub due: bool,
    // The brackets that are not closed yet; the term fields made, the bytes of their headers and values; the marks in the list. `fields` has another width than `size`, so that the compiler keeps the two sums apart.
    pub depth: usize,
    pub fields: u32,
    pub size: usize,
    pub count: usize,
}

// The value of a numeral, and the place behind its last digit.
#[derive(Clone, Copy)]
pub struct Numeral {
    pub value: usize,
    pub next: usize,
}

// The value with one digit more; a value that is too large stays so.
#[tactic(auto, unfolding(notation::specs::Scans::digit_more))]
fn digit_more(v: usize, b: u8) -> usize
    requires { 48 ≤ b }
    ensures { result ≡ digit_more v b }
{
    if MOST_VALUE < v {
        v
    } else {
        v * 10 + usize::from(b - b'0')
    }
}

// The digits that stand at a place, if there are any.
fn numeral_at(text: &[u8], from: usize) -> Numeral
    requires { from ≤ length text.now }
    ensures { NumeralRead text.now from result.value result.next }
{
    let mut value: usize = 0;
    for next in from..text.len() {
        let b = text[next];
        if !b.is_ascii_digit() {
            return Numeral { value, next };
        }
        value = digit_more(value, b);
    }
    Numeral {
        value,
        next: text.len(),
    }
}

// The tag of the leaf with a number that a byte begins.
#[tactic(auto, unfolding(notation::specs::Scans::begins_numbered))]
fn leaf_tag(b: u8) -> Option<u8>
    ensures { LeafTag b result }
{
    match b {
        b'a' => Some(ATOMIC),
        b'?' => Some(ASSERTION),
        b'T' => Some(DEFINED),
        _ => None,
    }
}

// The tag of a sign.
#[tactic(auto, unfolding(notation::specs::Scans::is_sign))]
fn sign_tag(b: u8) -> Option<u8>
    ensures { SignTag b result }
{
    match b {
        b';' => Some(SEQUENCE),
        b'*' => Some(TENSOR),
        b'|' => Some(ALTERNATION),
        _ => None,
    }
}

impl ScanState {
    // Behind the blanks and the brackets that open here. A text can have many more of these than of term fields, so that they have a loop of their own.
    fn past_openings(self, text: &[u8], work: &mut [u8]) -> ScanState
        requires { Ready text.now work.old self × (self.due ≡ true) }
        ensures { Opened text.now work.new self result }
    {
        let mut depth = self.depth;
        let mut count = self.count;
        for at in self.at..text.len() {
            match text[at] {
                b'(' => {
                    work[3 * count] = OPENING;
                    depth += 1;
                    count += 1;
                }
                b' ' => {}
                _ => {
                    return ScanState {
                        at,
                        depth,
                        count,
                        ..self
                    };
                }
            }
        }
        ScanState {
            at: text.len(),
            depth,
            count,
            ..self
        }
    }

    // Behind the blanks and the brackets that close here, as long as one is open.
    fn past_closings(self, text: &[u8], work: &mut [u8]) -> ScanState
        requires { Ready text.now work.old self × (self.due ≡ false) }
        ensures { Closed text.now work.new self result }
    {
        let mut depth = self.depth;
        let mut count = self.count;
        for at in self.at..text.len() {
            match text[at] {
                b')' if 0 < depth => {
                    work[3 * count] = CLOSING;
                    depth -= 1;
                    count += 1;
                }
                b' ' => {}
                _ => {
                    return ScanState {
                        at,
                        depth,
                        count,
                        ..self
                    };
                }
            }
        }
        ScanState {
            at: text.len(),
            depth,
            count,
            ..self
        }
    }

    // A mark that makes a field is complete: it is put in the list, and the field is counted unless it is one too many.
    #[tactic(auto, unfolding(crate::specs::Places::completed))]
    fn complete(
        self,
        work: &mut [u8],
        tag: u8,
        next: usize,
        due: bool,
        bytes: usize,
    ) -> Result<ScanState, Refusal>
        requires { (3 * self.count < length work.old) × (self.count < 65536) × (self.size ≤ 65536) × (bytes ≤ 5) }
        ensures value { result ≡ completed self next due bytes }
        ensures work_after { work.new ≡ set work.old (3 * self.count) tag }
    {
        work[3 * self.count] = tag;
        if MOST_FIELDS <= self.fields {
            return Err(Refusal::new(Cause::LimitPassed, self.at));
        }
        Ok(ScanState {
            at: next,
            due,
            fields: self.fields + 1,
            size: self.size + bytes,
            count: self.count + 1,
            ..self
        })
    }

    // The number behind the first byte of a mark. It is refused at its first digit, or where that should be.
    fn number(self, text: &[u8]) -> Result<Numeral, Refusal>
        requires { self.at < length text.now }
        ensures { NumberTold text.now (self.at + 1) result }
    {
        let from = self.at + 1;
        let read = numeral_at(text, from);
        if read.next == from {
            return Err(Refusal::new(Cause::TextWrong, from));
        }
        if MOST_VALUE < read.value {
            return Err(Refusal::new(Cause::ValueTooLarge, from));
        }
        Ok(read)
    }

    // `a12`, `?30` or `T4`.
    fn leaf(self, text: &[u8], work: &mut [u8], tag: u8) -> Result<ScanState, Refusal>
        requires { Ready text.now work.old self × (self.due ≡ true) × LeafByte (get_or text.now self.at 0) tag }
        ensures { After text.now work.new self.at result }
    {
        let Numeral { value, next } = self.number(text)?;
        store16(work, 3 * self.count + 1, value as u16);
        self.complete(work, tag, next, false, 5)
    }

    // `[3]`. The value is judged before the bracket that closes it.
    fn label(self, text: &[u8], work: &mut [u8]) -> Result<ScanState, Refusal>
        requires { Ready text.now work.old self × (self.due ≡ true) × (get_or text.now self.at 0 ≡ 91) }
        ensures { After text.now work.new self.at result }
    {
        let Numeral { value, next } = self.number(text)?;
        if text.len() <= next || text[next] != b']' {
            return Err(Refusal::new(Cause::TextWrong, next));
        }
        store16(work, 3 * self.count + 1, value as u16);
        self.complete(work, LABEL, next + 1, true, 5)
    }

    // `id` or `<>`.
    fn two_bytes(
        self,
        text: &[u8],
        work: &mut [u8],
        second: u8,
        tag: u8,
    ) -> Result<ScanState, Refusal>
        requires { Ready text.now work.old self × (self.due ≡ true) × TwoBytes (get_or text.now self.at 0) second tag }
        ensures { After text.now work.new self.at result }
    {
        let from = self.at + 1;
        if text.len() <= from || text[from] != second {
            return Err(Refusal::new(Cause::TextWrong, from));
        }
        self.complete(work, tag, from + 1, false, 3)
    }

    // An operand is due.
    fn on_due(self, text: &[u8], work: &mut [u8]) -> Result<ScanState, Refusal>
        requires { Ready text.now work.old self × (self.due ≡ true) }
        ensures { After text.now work.new self.at result }
    {
        let past = self.past_openings(text, work);
        if text.len() <= past.at {
            return Ok(past);
        }
        match text[past.at] {
            b'[' => past.label(text, work),
            b'i' => past.two_bytes(text, work, b'd', ID),
            b'<' => past.two_bytes(text, work, b'>', EMPTY),
            b => match leaf_tag(b) {
                Some(tag) => past.leaf(text, work, tag),
                None => Err(Refusal::new(Cause::TextWrong, past.at)),
            },
        }
    }

    // An operand was read.
    fn on_had(self, text: &[u8], work: &mut [u8]) -> Result<ScanState, Refusal>
        requires { Ready text.now work.old self × (self.due ≡ false) }
        ensures { After text.now work.new self.at result }
    {
        let past = self.past_closings(text, work);
        if text.len() <= past.at {
            return Ok(past);
        }
        match sign_tag(text[past.at]) {
            Some(tag) => past.complete(work, tag, past.at + 1, true, 3),
            None => Err(Refusal::new(Cause::TextWrong, past.at)),
        }
    }

    // Behind the next mark that is no bracket, or at the end of the text.
    fn pass(self, text: &[u8], work: &mut [u8]) -> Result<ScanState, Refusal>
        requires { Ready text.now work.old self }
        ensures { After text.now work.new self.at result }
    {
        if self.due {
            self.on_due(text, work)
        } else {
            self.on_had(text, work)
        }
    }
}

// The whole text. Its marks are put in the list as far as they are read.
pub fn scan_text(text: &[u8], work: &mut [u8]) -> Result<Scanned, Refusal>
    requires { (length text.now < 65536) × (3 * length text.now ≤ length work.old) }
    ensures value { result ≡ scan_shape (length (marks_in text.now)) (scan start 0 text.now) }
    ensures by_index { IfOk result (λ r. MarksStand work.new (marks_in text.now) r.count) }
{
    let mut here = ScanState {
        at: 0,
        due: true,
        depth: 0,
        fields: 0,
        size: 0,
        count: 0,
    };
    // It goes on by the length of each mark, so this is no count.
    while here.at < text.len() {
        here = here.pass(text, work)?;
    }
    if here.due || here.depth != 0 {
        return Err(Refusal::new(Cause::TextWrong, here.at));
    }
    Ok(Scanned {
        count: here.count,
        size: here.size,
    })
}
