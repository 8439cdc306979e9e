// The parts of the five files: the fields that stand in no term, which are goal lists, rules, definitions and entries; and what comes behind each, and behind a term.
// Document 01, "Fields", and of "What the bytes bring about" 1, the limits of 5, and 4 for bytes behind the last field.
#![tactic(auto)]

pub mod state;

ghost use Rattle.std.specs.Prelude.{◌≡◌, ◌+◌, ◌≤◌, ◌<◌, cond, eqb, leb, get_or, length};
ghost use Rattle.format.specs.Kinds.{kind_number};
ghost use Rattle.parts.specs.declared.state.Part.TheVariants.{Entries, Fields, Body};
ghost use Rattle.parts.specs.Reader.{Encloses};
ghost use Rattle.parts.specs.States.{low_of, high_of, full_of, next_of, table_field, entry_taken, remaining_taken, list_taken, taken, behind_body, behind_job, behind_term, blank_state, begun_file, begun_table};

use crate::state::{MOST_TERM_FIELDS, Mode, Part, State, Why};
use format::headers::Header;
use format::refusals::{Cause, Refusal};
use format::tags::{Kind, RULE_TAG, USE_TAG};
use words::load16;

pub const MOST_BYTES: usize = 65535;

const MOST_RULES: usize = 4096;

const MOST_DEFINITIONS: usize = 256;

const MOST_USES: usize = 4096;

const MOST_OPENS: usize = 256;

const MOST_GOALS: usize = 256;

// In what may stand where a state is, terms are told from other parts by one test in front of the match: a match on all parts costs a fifth more instructions for every field of a term.
// What is required of a state is no invariant of it and no struct: behind_term asks for less than take, so a type with all of it would ask more of its callers.
impl State {
    // The lowest kind that may stand where a state is; once there is a definition no rule may follow.
    #[tactic(auto, using(crate::proofs::PartLaws::by_parts), unfolding(crate::specs::States::low_of, format::specs::Next::lowest))]
    pub fn low(self) -> Kind
        ensures { kind_number result ≡ low_of self }
    {
        if self.part.is_term() {
            return Kind::Hiproof;
        }
        match self.part {
            Part::Fields => if self.second == 0 {
                Kind::Rule
            } else {
                Kind::Definition
            },
            Part::Entries => Kind::Entry,
            _ => Kind::GoalList,
        }
    }

    // The highest kind that may stand there.
    #[tactic(auto, using(crate::proofs::PartLaws::by_parts), unfolding(crate::specs::States::high_of))]
    pub fn high(self) -> Kind
        ensures { kind_number result ≡ high_of self.part }
    {
        if self.part.is_term() {
            return if self.part == Part::ProofTerm {
                Kind::Hiproof
            } else {
                Kind::Tactic
            };
        }
        match self.part {
            Part::Fields => Kind::Definition,
            Part::Entries => Kind::Entry,
            _ => Kind::GoalList,
        }
    }

    // Of fields of two kinds, whether those of the kind that begins there are as many as may be: the first kind is that of a tag.
    fn is_at_limit(self, s: &[u8], tag: u8, first: usize, second: usize) -> bool
        requires { self.at < length s.now }
        ensures { result ≡ cond (eqb (get_or s.now self.at 0) tag) (leb first self.first) (leb second self.second) }
    {
        if s[self.at] == tag {
            first <= self.first
        } else {
            second <= self.second
        }
    }

    // Whether no more fields of the kind that begins there may come.
    #[tactic(auto, using(crate::proofs::PartLaws::by_parts), unfolding(crate::specs::States::full_of, format::specs::Next::full_table, format::specs::Next::full_flat))]
    pub fn is_full(self, s: &[u8]) -> bool
        requires { (self.part ≡ Entries → self.at < length s.now) × (self.part ≡ Fields → self.at < length s.now) }
        ensures { result ≡ full_of s.now self }
    {
        if self.part.is_term() {
            return MOST_TERM_FIELDS <= self.fields;
        }
        match self.part {
            Part::Fields => self.is_at_limit(s, RULE_TAG, MOST_RULES, MOST_DEFINITIONS),
            Part::Entries => self.is_at_limit(s, USE_TAG, MOST_USES, MOST_OPENS),
            _ => false,
        }
    }

    // The next field of a part that has any number of fields is read at a place, or the file ends there.
    #[tactic(auto, unfolding(crate::specs::States::next_of))]
    fn next(self, part: Part, at: usize, s: &[u8]) -> State
        ensures { result ≡ next_of s.now self part at }
    {
        let end = s.len();
        if end <= at {
            return self.asking(Mode::Gave, part, at, end);
        }
        self.asking(Mode::Reads, part, at, end)
    }

    // A rule, or a definition, whose body is read next.
    #[tactic(auto, unfolding(crate::specs::States::table_field))]
    fn table_field(self, tag: u8, close: usize, s: &[u8]) -> State
        requires { (self.at ≤ length s.now) × (self.first ≤ self.at) }
        ensures { result ≡ table_field s.now self tag close }
    {
        if tag == RULE_TAG {
            let behind = State {
                first: self.first + 1,
                from: close,
                ..self
            };
            return behind.next(Part::Fields, close, s);
        }
        let inside = State {
            field: self.at,
            ..self
        };
        inside.asking(Mode::Reads, Part::Body, self.at + 5, close)
    }

    // A use or an open.
    #[tactic(auto, unfolding(crate::specs::States::entry_taken))]
    fn entry(self, tag: u8, close: usize, s: &[u8]) -> State
        requires { (self.at ≤ length s.now) × (self.first ≤ self.at) × (self.second ≤ self.at) }
        ensures { result ≡ entry_taken s.now self tag close }
    {
        let behind = if tag == USE_TAG {
            State {
                first: self.first + 1,
                ..self
            }
        } else {
            State {
                second: self.second + 1,
                ..self
            }
        };
        behind.next(Part::Entries, close, s)
    }

    // The list of those remaining ends a proof file: nothing may be left behind it.
    #[tactic(auto, unfolding(crate::specs::States::remaining_taken))]
    fn remaining(self, count: usize, close: usize) -> State
        ensures { result ≡ remaining_taken self count close }
    {
        if close != self.end {
            return self.refused(Cause::LengthWrong, close);
        }
        let behind = State {
            second: count,
            ..self
        };
        behind.asking(Mode::Gave, self.part, close, self.end)
    }

    // A goal list of so many goals: those remaining, or the first list of a file.
    #[tactic(auto, unfolding(crate::specs::States::list_taken, crate::specs::States::behind_list))]
    fn goal_list(self, count: usize, close: usize, s: &[u8]) -> State
        ensures { result ≡ list_taken s.now self count close }
    {
        if MOST_GOALS < count {
            return self.refused(Cause::LimitPassed, self.at);
        }
        let behind = State {
            goals: count,
            from: close,
            ..self
        };
        match self.part {
            Part::Remaining => self.remaining(count, close),
            Part::Roots => behind.next(Part::Entries, close, s),
            Part::JobGoals => behind.asking(Mode::Reads, Part::JobTerm, close, self.end),
            _ => behind.asking(Mode::Reads, Part::ProofTerm, close, self.end),
        }
    }

    // From the header of a field that stands in no term to what is read next.
    #[tactic(auto, using(crate::proofs::PartLaws::by_parts), unfolding(crate::specs::States::taken, crate::specs::Reader::Encloses))]
    pub fn take(self, header: Result<Header, Refusal>, s: &[u8]) -> State
        requires { (self.at ≤ self.end) × (self.end ≤ length s.now) × (self.first ≤ self.at) × (self.second ≤ self.at) × Encloses self.at self.end header }
        ensures { result ≡ taken s.now self header }
    {
        match header {
            Err(Refusal { cause, place }) => self.refused(cause, place),
            Ok(Header { tag, len }) => {
                let close = self.at + 3 + len;
                match self.part {
                    Part::Fields => self.table_field(tag, close, s),
                    Part::Entries => self.entry(tag, close, s),
                    _ => self.goal_list(len / 2, close, s),
                }
            }
        }
    }

    // Behind the body of a definition the next field is read. Nothing may be left in the definition.
    #[tactic(auto, unfolding(crate::specs::States::behind_body, crate::specs::States::end_of))]
    fn behind_body(self, s: &[u8]) -> State
        requires { (self.field + 2 < length s.now) × (self.second ≤ self.at) × (self.at ≤ length s.now) }
        ensures { result ≡ behind_body s.now self }
    {
        if self.at != self.field + 3 + load16(s, self.field + 1) as usize {
            return self.refused(Cause::LengthWrong, self.field);
        }
        let behind = State {
            second: self.second + 1,
            ..self
        };
        behind.next(Part::Fields, self.at, s)
    }

    // Behind a term that no field encloses: the next definition, those remaining, or the end of the file. Nothing may be left behind the term of a job.
    #[tactic(auto, unfolding(crate::specs::States::behind_term, crate::specs::States::behind_part, crate::specs::States::behind_job))]
    pub fn behind_term(self, s: &[u8]) -> State
        requires { (self.part ≡ Body → self.field + 2 < length s.now) × (self.at ≤ length s.now) × (self.second ≤ self.at) }
        ensures { result ≡ behind_term s.now self }
    {
        match self.part {
            Part::Body => self.behind_body(s),
            Part::JobTerm => if self.at == s.len() {
                self
            } else {
                self.refused(Cause::LengthWrong, self.at)
            },
            _ => {
                let behind = State {
                    rest: self.at,
                    ..self
                };
                behind.asking(Mode::Reads, Part::Remaining, self.at, s.len())
            }
        }
    }

    // Nothing of a file is read.
    #[tactic(auto, unfolding(crate::specs::States::blank_state))]
    fn blank(part: Part) -> State
        ensures { result ≡ blank_state part }
    {
        State {
            mode: Mode::Refused,
            part,
            at: 0,
            end: 0,
            fields: 0,
            depth: 0,
            top: 0,
            goals: 0,
            first: 0,
            second: 0,
            from: 0,
            rest: 0,
            field: 0,
            why: Why::Number(0),
            place: 0,
        }
    }
}

// A file that begins with a goal list, unless it is too long.
#[tactic(auto, unfolding(crate::specs::States::begun_file))]
pub fn begin_file(s: &[u8], part: Part) -> State
    ensures { result ≡ begun_file s.now part }
{
    let end = s.len();
    let x = State::blank(part).asking(Mode::Reads, part, 0, end);
    if MOST_BYTES < end {
        return x.refused(Cause::InputTooLong, 0);
    }
    x
}

// A table.
#[tactic(auto, unfolding(crate::specs::States::begun_table))]
pub fn begin_table(s: &[u8]) -> State
    ensures { result ≡ begun_table s.now }
{
    State::blank(Part::Fields).next(Part::Fields, 0, s)
}
