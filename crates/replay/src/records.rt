// The records of a vector file (docs/VECTORS.md). Nothing is believed: every length is compared with what is left.
ghost use Rattle.std.specs.Prelude.{◌≡◌, ◌+◌, ◌*◌, ◌≤◌, ◌<◌, IfSome, length};
ghost use Rattle.words.specs.Word.{word};
ghost use Rattle.replay.specs.Bounds.{Inside};

use answers::Answer;
use words::{copy_in, load16};

// The header: magic, version, number of cases, four lengths.
pub const HEADER: usize = 30;

// HITACVEC and version 2.
const MAGIC: [u8; 10] = [72, 73, 84, 65, 67, 86, 69, 67, 0, 2];

// The kinds of record.
pub const END: u8 = 0;

pub const TABLE: u8 = 1;

pub const OTHER: u8 = 2;

pub const CASE: u8 = 3;

// The length of a case record up to the height, which only a case of search has, in four bytes.
pub const CASE_BYTES: usize = 66;

// The entries. They are numbers, as a case tells them: case_bytes, load_case and findings::replay_reading take any byte.
pub const CHECK: u8 = 1;

pub const RUN: u8 = 2;

pub const FLATTEN: u8 = 3;

pub const CHECK_FLAT: u8 = 4;

pub const WRITE_PROOF: u8 = 5;

pub const READ_TEXT: u8 = 6;

pub const WRITE_TEXT: u8 = 7;

pub const SEARCH: u8 = 8;

// A case: the entry, what it lends, and the answer and digest that are told.
#[derive(Clone, Copy)]
pub struct Case {
    pub entry: u8,
    pub budget: u32,
    pub lent: usize,
    pub room: usize,
    pub told: Answer,
    pub digest: u32,
    pub height: u32,
}

// What a file record gives: the place behind it and the size of the file.
#[derive(Clone, Copy)]
pub struct Expanded {
    pub next: usize,
    pub size: usize,
}

// The number in four bytes, high byte first.
#[tactic(auto, unfolding(words::specs::Word::word))]
pub fn load32(s: &[u8], at: usize) -> u32
    requires { at + 3 < length s.now }
    ensures { result ≡ word s.now at * 65536 + word s.now (at + 2) }
{
    u32::from_be_bytes([s[at], s[at + 1], s[at + 2], s[at + 3]])
}

// Whether a header is of this format and version.
pub fn begins_right(s: &[u8]) -> bool
    requires { 30 ≤ length s.now }
{
    s.starts_with(&MAGIC)
}

// One piece of a file record, at a place of the buffer: the place behind the piece, and how far the buffer is filled; none where the piece is damaged.
fn expand_piece(s: &[u8], at: usize, out: &mut [u8], filled: usize) -> Option<Expanded>
    requires { (at ≤ length s.now) × (filled ≤ length out.old) }
    ensures { IfSome result (λ r. Inside r at (length s.now) (length out.old)) }
{
    if s.len() - at < 7 {
        return None;
    }
    let from = at + 6;
    let block = load16(s, at + 4) as usize;
    if block == 0 || s.len() - from < block {
        return None;
    }
    let mut to = filled;
    for _ in 0..load32(s, at) {
        if out.len() - to < block {
            return None;
        }
        copy_in(out, to, s, from, block);
        to += block;
    }
    Some(Expanded {
        next: from + block,
        size: to,
    })
}

// The file of a file record, at the beginning of the buffer; none where the record is damaged.
pub fn expand(s: &[u8], at: usize, out: &mut [u8]) -> Option<Expanded>
    requires { at < length s.now }
    ensures { IfSome result (λ r. Inside r (at + 1) (length s.now) (length out.old)) }
{
    if s.len() - at < 7 {
        return None;
    }
    let size = load32(s, at + 1) as usize;
    let mut file = Expanded {
        next: at + 7,
        size: 0,
    };
    for _ in 0..load16(s, at + 5) {
        file = expand_piece(s, file.next, out, file.size)?;
    }
    if file.size != size {
        return None;
    }
    Some(file)
}

// The twelve numbers of an answer.
fn load_answer(s: &[u8], at: usize) -> Answer
    requires { at + 48 ≤ length s.now }
{
    Answer {
        number: load32(s, at),
        file: load32(s, at + 4),
        place: load32(s, at + 8),
        steps: load32(s, at + 12),
        length: load32(s, at + 16),
        fields: load32(s, at + 20),
        uses: load32(s, at + 24),
        remaining: load32(s, at + 28),
        rules: load32(s, at + 32),
        goals: load32(s, at + 36),
        longest: load32(s, at + 40),
        tactic: load32(s, at + 44),
    }
}

// The length of an entry's case record.
pub fn case_bytes(entry: u8) -> usize
    ensures { (66 ≤ result) × (result ≤ 70) × (entry ≡ 8 → result ≡ 70) }
{
    if entry == SEARCH {
        CASE_BYTES + 4
    } else {
        CASE_BYTES
    }
}

// The height that a case of search tells last; 0 in every other.
fn load_height(s: &[u8], at: usize, entry: u8) -> u32
    requires { entry ≡ 8 → at + 70 ≤ length s.now }
{
    if entry == SEARCH {
        load32(s, at + CASE_BYTES)
    } else {
        0
    }
}

// An entry's case record of which all bytes are there.
pub fn load_case(s: &[u8], at: usize, entry: u8) -> Case
    requires { (at + 66 ≤ length s.now) × (entry ≡ 8 → at + 70 ≤ length s.now) }
{
    Case {
        entry,
        budget: load32(s, at + 2),
        lent: load32(s, at + 6) as usize,
        room: load32(s, at + 10) as usize,
        told: load_answer(s, at + 14),
        digest: load32(s, at + 62),
        height: load_height(s, at, entry),
    }
}
