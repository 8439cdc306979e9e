// The one answer of every entry.
// Document 01, "What the bytes bring about" and "What the state brings about": number, file, place and steps. Document 02, P6: the different rules used.
#![tactic(auto)]

ghost use Rattle.std.specs.Prelude.{◌≡◌, true, ◌≤◌};
ghost use Rattle.format.specs.Refusals.{number};
ghost use Rattle.answers.specs.Answers as said;
ghost use Rattle.answers.specs.Answers.{file_number};

use format::refusals::Cause;

// The file in which the place of a refusal lies; the table is the first file of an entry, the other one is its proof, job, term or text.
#[derive(Clone, Copy, PartialEq, Eq)]
pub enum File {
    Neither,
    Table,
    Other,
}

impl File {
    // The file's number in an answer.
    pub fn number(self) -> u8
        ensures { result ≡ file_number self }
    {
        match self {
            File::Neither => 0,
            File::Table => 1,
            File::Other => 2,
        }
    }
}

// Number (0 for success), file (1 table, 2 the other, 0 neither), place (a byte offset in that file) and steps (terms begun); then, of a success, the bytes written, the term fields, the uses, the remaining goals and the different rules used.
// The last three are for calls to come (goals taken, the longest list, a tactic's number). They stand here already, so that the struct keeps its form. What does not apply is 0.
// C reads the number and the file, so that they stay numbers here.
#[repr(C)]
#[derive(Clone, Copy, PartialEq, Eq)]
pub struct Answer {
    pub number: u32,
    pub file: u32,
    pub place: u32,
    pub steps: u32,
    pub length: u32,
    pub fields: u32,
    pub uses: u32,
    pub remaining: u32,
    pub rules: u32,
    pub goals: u32,
    pub longest: u32,
    pub tactic: u32,
}

// An answer of which nothing applies.
const NOTHING: Answer = Answer {
    number: 0,
    file: 0,
    place: 0,
    steps: 0,
    length: 0,
    fields: 0,
    uses: 0,
    remaining: 0,
    rules: 0,
    goals: 0,
    longest: 0,
    tactic: 0,
};

impl Answer {
    // A refusal, after so many steps.
    pub fn refused(cause: Cause, file: File, place: usize, steps: usize) -> Answer
        requires { (place ≤ 65535) × (steps ≤ 65535) }
        ensures { result ≡ said.refusal (number cause) (file_number file) place steps }
    {
        Answer {
            number: u32::from(cause.number()),
            file: u32::from(file.number()),
            place: place as u32,
            steps: steps as u32,
            ..NOTHING
        }
    }

    // The success of a checker.
    pub fn counted(fields: usize, uses: usize, remaining: usize, rules: usize) -> Answer
        requires { (fields ≤ 65535) × (uses ≤ 65535) × (remaining ≤ 65535) × (rules ≤ 65535) }
        ensures { result ≡ said.counted fields uses remaining rules }
    {
        Answer {
            fields: fields as u32,
            uses: uses as u32,
            remaining: remaining as u32,
            rules: rules as u32,
            ..NOTHING
        }
    }

    // The success of an entry that writes, after so many steps.
    pub fn wrote(length: usize, steps: usize) -> Answer
        requires { (length ≤ 65535) × (steps ≤ 65535) }
        ensures { result ≡ said.wrote length steps }
    {
        Answer {
            steps: steps as u32,
            length: length as u32,
            ..NOTHING
        }
    }
}

// Whether all twelve numbers are the same: what `==` of two answers decides, said in a clause.
pub fn same_answer(a: Answer, b: Answer) -> bool
    ensures { (result ≡ true → a ≡ b) × (a ≡ b → result ≡ true) }
{
    a == b
}
