// The bytes of a term, from the marks of its text: from the last mark to the first, and from the last byte to the first.
// Chains group to the right and a label reaches to the right, so that whatever a mark takes stands already, and its length is known when its header is written.
ghost use Rattle.std.specs.Prelude.{◌≡◌, List, ◌∷◌, ◌++◌, ℕ, ◌+◌, ◌*◌, ◌≤◌, ◌<◌, length, drop, set, get_or};
ghost use Rattle.words.specs.Word.{put_word};
ghost use Rattle.format.specs.Terms.{Term};
ghost use Rattle.format.specs.Encoding.{word_bytes, term_bytes};
ghost use Rattle.notation.specs.Marks.{Sign, Mark, sign_term, label_term};
ghost use Rattle.notation.specs.Written.{rank};
ghost use Rattle.notation.specs.FromRight.{Frame, waiting, bracket, reduced_term, reduced_frames, unbracket, state_of};
ghost use Rattle.text_reader.specs.Held.{frames_end, sign_tag, Stacked, ShownDue, ShownHad, Shown, NotStuck, reduces_more, waits, SameBelow, MarkReady, Prepared};

use crate::scan::{CLOSING, OPENING};
use format::tags::{EMPTY, ID, LABEL};
use notation::signs::{is_pair, rank_of};
use words::{load16, store16};

// Where the frames end: the size of the work space.
pub const FRAMES_END: usize = 196608;

// The first byte of a bracket's frame; that of a sign's is the sign's tag.
const BRACKET: u8 = 0;

// Where the bytes written so far begin, where the term read last ends, and the lowest frame in the work space.
#[derive(Clone, Copy)]
pub struct TermState {
    pub front: usize,
    pub stop: usize,
    pub low: usize,
}

// A field's tag and length, at a place.
fn put_header(out: &mut [u8], at: usize, tag: u8, len: usize)
    requires { (at + 3 ≤ length out.old) × (len < 65536) }
    ensures { drop at out.new ≡ tag ∷ (word_bytes len ++ drop (at + 3) out.old) }
{
    out[at] = tag;
    store16(out, at + 1, len as u16);
}

// A value, at a place.
fn put_value(out: &mut [u8], at: usize, v: u16)
    requires { at + 2 ≤ length out.old }
    ensures { drop at out.new ≡ word_bytes v ++ drop (at + 2) out.old }
{
    store16(out, at, v);
}

// Whether the lowest frame is a sign that binds at least as tight.
fn reduces_more(low: usize, least: usize, work: &[u8]) -> bool
    requires { frames_end ≤ length work.now }
    ensures { (total : ℕ) (fs : List Frame) → Stacked work.now total low fs → result ≡ reduces_more least fs }
{
    if FRAMES_END <= low {
        return false;
    }
    match work[low] {
        BRACKET => false,
        sign => least <= rank_of(sign),
    }
}

// A sign that waits, below the other frames.
fn push(kind: u8, end: usize, low: usize, work: &mut [u8])
    requires { (low + 3 ≤ length work.old) × (end < 65536) }
    ensures { work.new ≡ put_word (set work.old low kind) (low + 1) end }
{
    work[low] = kind;
    store16(work, low + 1, end as u16);
}

impl TermState {
    // The lowest frame, a sign, with the term read last.
    fn reduce_one(self, work: &[u8], out: &mut [u8]) -> TermState
        requires { (3 ≤ self.front) × (frames_end ≤ length work.now) × (length out.old < 65536) × ((t : Term) × (s : Sign) × (u : Term) × (fs : List Frame) × ShownHad t (waiting s u ∷ fs) work.now out.old self.front self.stop self.low) }
        ensures shown_had { (t : Term) (s : Sign) (u : Term) (fs : List Frame) → ShownHad t (waiting s u ∷ fs) work.now out.old self.front self.stop self.low → ShownHad (sign_term s t u) fs work.now out.new result.front result.stop result.low }
        ensures front_value { (result.front + 3 ≡ self.front) × (self.low + 3 ≡ result.low) × (result.low ≤ frames_end) }
    {
        let front = self.front;
        let low = self.low;
        let kind = work[low];
        let end = load16(work, low + 1) as usize;
        put_header(out, front - 3, kind, end - front);
        TermState {
            front: front - 3,
            stop: end,
            low: low + 3,
        }
    }

    // Every sign among the lowest frames that binds at least as tight, with the term read last.
    fn reduce(self, least: usize, work: &[u8], out: &mut [u8]) -> TermState
        requires { (frames_end ≤ length work.now) × (length out.old < 65536) × ((t : Term) × (fs : List Frame) × ShownHad t fs work.now out.old self.front self.stop self.low × (3 * waits fs ≤ self.front)) }
        ensures shown_had { (t : Term) (fs : List Frame) → ShownHad t fs work.now out.old self.front self.stop self.low → 3 * waits fs ≤ self.front → ShownHad (reduced_term least t fs) (reduced_frames least fs) work.now out.new result.front result.stop result.low }
        ensures low_le_low { (self.low ≤ result.low) × (result.low ≤ frames_end) }
    {
        let mut here = self;
        while reduces_more(here.low, least, work) {
            here = here.reduce_one(work, out);
        }
        here
    }

    // A term with a value: 5 bytes.
    fn put_valued(self, tag: u8, v: u16, out: &mut [u8]) -> TermState
        requires { (5 ≤ self.front) × (self.front ≤ length out.old) }
        ensures out_after { drop result.front out.new ≡ tag ∷ (word_bytes 2 ++ (word_bytes v ++ drop self.front out.old)) }
        ensures front_value { (result.front + 5 ≡ self.front) × (result.stop ≡ self.front) × (result.low ≡ self.low) }
    {
        let front = self.front;
        put_value(out, front - 2, v);
        put_header(out, front - 5, tag, 2);
        TermState {
            front: front - 5,
            stop: front,
            ..self
        }
    }

    // A term without a value: 3 bytes.
    fn put_plain(self, tag: u8, out: &mut [u8]) -> TermState
        requires { (3 ≤ self.front) × (self.front ≤ length out.old) }
        ensures out_after { drop result.front out.new ≡ tag ∷ (word_bytes 0 ++ drop self.front out.old) }
        ensures front_value { (result.front + 3 ≡ self.front) × (result.stop ≡ self.front) × (result.low ≡ self.low) }
    {
        let front = self.front;
        put_header(out, front - 3, tag, 0);
        TermState {
            front: front - 3,
            stop: front,
            ..self
        }
    }

    // A label: it takes everything up to its bracket or the end.
    fn on_label(self, v: u16, work: &[u8], out: &mut [u8]) -> TermState
        requires { (frames_end ≤ length work.now) × (length out.old < 65536) × ((t : Term) × (fs : List Frame) × ShownHad t fs work.now out.old self.front self.stop self.low × (3 * waits fs + 5 ≤ self.front)) }
        ensures { (t : Term) (fs : List Frame) → ShownHad t fs work.now out.old self.front self.stop self.low → 3 * waits fs + 5 ≤ self.front → ShownHad (label_term v (reduced_term 0 t fs)) (reduced_frames 0 fs) work.now out.new result.front result.stop result.low }
    {
        let here = self.reduce(0, work, out);
        let front = here.front;
        let len = here.stop - front + 2;
        put_value(out, front - 2, v);
        put_header(out, front - 5, LABEL, len);
        TermState {
            front: front - 5,
            ..here
        }
    }

    // A sign: it takes every chain to its right that binds at least as tight, and waits for what stands to its left.
    fn on_sign(self, tag: u8, work: &mut [u8], out: &mut [u8]) -> TermState
        requires { (3 ≤ self.low) × (frames_end ≤ length work.old) × (length out.old < 65536) × ((t : Term) × (fs : List Frame) × ShownHad t fs work.old out.old self.front self.stop self.low × (3 * waits fs ≤ self.front)) }
        ensures shown_due { (s : Sign) (t : Term) (fs : List Frame) → tag ≡ sign_tag s → ShownHad t fs work.old out.old self.front self.stop self.low → 3 * waits fs ≤ self.front → ShownDue (waiting s (reduced_term (rank s) t fs) ∷ reduced_frames (rank s) fs) work.new out.new result.front result.low }
        ensures low_bound { (self.low ≤ result.low + 3) × SameBelow result.low work.old work.new }
    {
        let least = rank_of(tag);
        let here = self.reduce(least, work, out);
        let low = here.low - 3;
        push(tag, here.stop, low, work);
        TermState { low, ..here }
    }

    // An opening bracket: it takes everything up to its closing one, and that one away.
    fn on_opening(self, work: &[u8], out: &mut [u8]) -> TermState
        requires { (frames_end ≤ length work.now) × (length out.old < 65536) × ((t : Term) × (fs : List Frame) × ShownHad t fs work.now out.old self.front self.stop self.low × (3 * waits fs ≤ self.front) × NotStuck (unbracket (reduced_term 0 t fs) (reduced_frames 0 fs))) }
        ensures { (t : Term) (fs : List Frame) → ShownHad t fs work.now out.old self.front self.stop self.low → 3 * waits fs ≤ self.front → NotStuck (unbracket (reduced_term 0 t fs) (reduced_frames 0 fs)) → Shown (unbracket (reduced_term 0 t fs) (reduced_frames 0 fs)) work.now out.new result.front result.stop result.low }
    {
        let here = self.reduce(0, work, out);
        TermState {
            low: here.low + 3,
            ..here
        }
    }

    // A closing bracket.
    fn on_closing(self, work: &mut [u8]) -> TermState
        requires { (3 ≤ self.low) × (self.low ≤ frames_end) × (frames_end ≤ length work.old) }
        ensures shown_due { (fs : List Frame) (out : List ℕ) → ShownDue fs work.old out self.front self.low → ShownDue (bracket ∷ fs) work.new out result.front result.low }
        ensures low_value { (self.low ≡ result.low + 3) × SameBelow result.low work.old work.new }
    {
        let low = self.low - 3;
        work[low] = BRACKET;
        TermState { low, ..self }
    }

    // One mark more, from the right.
    fn on_mark(self, at: usize, work: &mut [u8], out: &mut [u8]) -> TermState
        requires { (ms : List Mark) × MarkReady ms at work.old out.old self.front self.stop self.low }
        ensures shown { (ms : List Mark) → MarkReady ms at work.old out.old self.front self.stop self.low → Shown (state_of (drop at ms)) work.new out.new result.front result.stop result.low }
        ensures same_below { SameBelow (3 * at) work.old work.new }
    {
        let place = 3 * at;
        let kind = work[place];
        // Brackets are told from the other marks by one test in front of the match: a text can have many more of them, and the match jumps by a table.
        if kind <= OPENING {
            if kind == CLOSING {
                return self.on_closing(work);
            }
            return self.on_opening(work, out);
        }
        match kind {
            tag @ (ID | EMPTY) => self.put_plain(tag, out),
            LABEL => self.on_label(load16(work, place + 1), work, out),
            tag if is_pair(tag) => self.on_sign(tag, work, out),
            tag => self.put_valued(tag, load16(work, place + 1), out),
        }
    }
}

// The term of so many marks, into just as many bytes as it has.
pub fn write_term(count: usize, work: &mut [u8], out: &mut [u8])
    requires { (ms : List Mark) × Prepared ms work.old count (length out.old) }
    ensures { (ms : List Mark) (p : Prepared ms work.old count (length out.old)) → out.new ≡ term_bytes p.term }
{
    let mut held = TermState {
        front: out.len(),
        stop: out.len(),
        low: FRAMES_END,
    };
    for at in (0..count).rev() {
        held = held.on_mark(at, work, out);
    }
    held.reduce(0, work, out);
}
