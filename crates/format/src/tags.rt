// Document 01, "Fourteen tags in all": constant tables by tag: where it may stand (its kind), the smallest and the greatest length of its contents, and the number of its inner terms.
// Each of these is a table of its own, as that document names them; a static of rows would take a line for each of their fields.
ghost use Rattle.std.specs.Prelude.{◌≡◌, ℕ, ◌≤◌, ◌<◌, ◌⊎◌};
ghost use Rattle.format.specs.Tags.{any_length, kind_of, least_of, most_of, inner_of, length_fits};
ghost use Rattle.format.specs.Kinds.{kind_number};

// The tags: of a table's fields, of a goal list, of terms, and of a flat file's entries.
pub const RULE_TAG: u8 = 1;

pub const DEFINITION_TAG: u8 = 2;

pub const GOALS_TAG: u8 = 3;

pub const ATOMIC: u8 = 16;

pub const ID: u8 = 17;

pub const LABEL: u8 = 18;

pub const SEQUENCE: u8 = 19;

pub const TENSOR: u8 = 20;

pub const EMPTY: u8 = 21;

pub const ALTERNATION: u8 = 22;

pub const ASSERTION: u8 = 23;

pub const DEFINED: u8 = 24;

pub const USE_TAG: u8 = 32;

pub const OPEN_TAG: u8 = 33;

// Where a tag may stand: nowhere, or as a field of that kind. A term of a hiproof is also one of a tactic; Tactic are the others. A table has its kinds in rising order.
#[derive(Clone, Copy, PartialEq, Eq)]
pub enum Kind {
    NoTag,
    Rule,
    Definition,
    GoalList,
    Hiproof,
    Tactic,
    Entry,
}

impl Kind {
    // Its number, by which kinds are in order. The gaps are for kinds that later requests add.
    pub fn number(self) -> u8
        ensures { result ≡ kind_number self }
    {
        match self {
            Kind::NoTag => 0,
            Kind::Rule => 10,
            Kind::Definition => 30,
            Kind::GoalList => 40,
            Kind::Hiproof => 50,
            Kind::Tactic => 60,
            Kind::Entry => 70,
        }
    }
}

// A row of the table: where the tag may stand, the fixed or smallest and the fixed or greatest length of its contents, and the number of its inner terms.
#[derive(Clone, Copy)]
pub struct Row {
    pub kind: Kind,
    pub least: u8,
    pub most: u16,
    pub inner: u8,
}

impl Row {
    // Whether a length is right for its tag. Where inner terms follow any length may be.
    pub fn fits(self, len: usize) -> bool
        requires { len ≤ any_length }
        ensures { (t : ℕ) → self.least ≡ least_of t → self.most ≡ most_of t → self.inner ≡ inner_of t → result ≡ length_fits t len }
    {
        if len < self.least as usize {
            return false;
        }
        if self.inner != 0 {
            return true;
        }
        if (self.most as usize) < len {
            return false;
        }
        len % 2 == 0
    }
}

// The greatest number that two length bytes hold.
const ANY: u16 = 65535;

// From the header of a term's field to the next header in the term: over the header and the values in front of the inner terms. For tags 16 to 24 alone, since who moves so knows that a term stands there.
pub static TERM_STEPS: [u8; 9] = [
    5, // 16
    3, // 17
    5, // 18
    3, // 19
    3, // 20
    3, // 21
    3, // 22
    5, // 23
    5, // 24
];

// The tables have an entry for each number below this, those of no tag too.
const NUMBERS: usize = 34;

// Where a tag may stand.
static KINDS: [Kind; NUMBERS] = [
    Kind::NoTag,
    Kind::Rule, // 1
    Kind::Definition, // 2
    Kind::GoalList, // 3
    Kind::NoTag,
    Kind::NoTag,
    Kind::NoTag,
    Kind::NoTag,
    Kind::NoTag,
    Kind::NoTag,
    Kind::NoTag,
    Kind::NoTag,
    Kind::NoTag,
    Kind::NoTag,
    Kind::NoTag,
    Kind::NoTag,
    Kind::Hiproof, // 16
    Kind::Hiproof, // 17
    Kind::Hiproof, // 18
    Kind::Hiproof, // 19
    Kind::Hiproof, // 20
    Kind::Hiproof, // 21
    Kind::Tactic, // 22
    Kind::Tactic, // 23
    Kind::Tactic, // 24
    Kind::NoTag,
    Kind::NoTag,
    Kind::NoTag,
    Kind::NoTag,
    Kind::NoTag,
    Kind::NoTag,
    Kind::NoTag,
    Kind::Entry, // 32
    Kind::Entry, // 33
];

// The fixed or smallest length of the contents.
static LEAST: [u8; NUMBERS] = [
    0, 4, // 1
    2, // 2
    0, // 3
    0, 0, 0, 0, 0, 0, 0, 0, 0, 0, 0, 0, 2, // 16
    0, // 17
    2, // 18
    0, // 19
    0, // 20
    0, // 21
    0, // 22
    2, // 23
    2, // 24
    0, 0, 0, 0, 0, 0, 0, 4, // 32
    2, // 33
];

// The fixed or greatest length of the contents.
static MOST: [u16; NUMBERS] = [
    0, 20, // 1
    ANY, // 2
    ANY, // 3
    0, 0, 0, 0, 0, 0, 0, 0, 0, 0, 0, 0, 2, // 16
    0, // 17
    ANY, // 18
    ANY, // 19
    ANY, // 20
    0, // 21
    ANY, // 22
    2, // 23
    2, // 24
    0, 0, 0, 0, 0, 0, 0, 4, // 32
    2, // 33
];

// The number of inner terms.
static INNER: [u8; NUMBERS] = [
    0, 0, // 1
    1, // 2
    0, // 3
    0, 0, 0, 0, 0, 0, 0, 0, 0, 0, 0, 0, 0, // 16
    0, // 17
    1, // 18
    2, // 19
    2, // 20
    0, // 21
    2, // 22
    0, // 23
    0, // 24
    0, 0, 0, 0, 0, 0, 0, 0, // 32
    0, // 33
];

// Where a tag's entries are; those of 0 stand for all numbers past the last tag.
fn entry_of(tag: u8) -> usize
    ensures { ((result ≡ tag) × (tag < 34)) ⊎ ((result ≡ 0) × (34 ≤ tag)) }
{
    let n = tag as usize;
    if n < NUMBERS { n } else { 0 }
}

// The row of a tag, or of a number that is no tag.
pub fn row_of(tag: u8) -> Row
    ensures kind { kind_number result.kind ≡ kind_of tag }
    ensures least { result.least ≡ least_of tag }
    ensures most { result.most ≡ most_of tag }
    ensures inner { result.inner ≡ inner_of tag }
{
    let n = entry_of(tag);
    Row {
        kind: KINDS[n],
        least: LEAST[n],
        most: MOST[n],
        inner: INNER[n],
    }
}

// The fixed or smallest length of a tag's contents.
pub fn least_of(tag: u8) -> u8
    ensures { result ≡ least_of tag }
{
    row_of(tag).least
}
