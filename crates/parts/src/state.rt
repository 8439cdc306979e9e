// How far a file has been read.
ghost use Rattle.std.specs.Prelude.{◌≡◌};
ghost use Rattle.parts.specs.States.{is_term, refusing, asking, refusal_of, Told};

use format::refusals::{Cause, Refusal};

// What comes next: nothing after a refusal, the field at a place, or what follows a term that was read; at the end of the file nothing.
// The refusal stands beside the mode, not in it: within it, it would cost a sixth more instructions for every field that is read.
#[derive(Clone, Copy, PartialEq, Eq)]
pub enum Mode {
    Refused,
    Reads,
    Gave,
}

// The parts of the files: the roots and the entries of a flat file, the fields of a table, the goals of a job and of a proof, those remaining of a proof; and the terms: the body of a definition, the term of a job and the hiproof of a proof. No file has another part, but reading goes on from every state: what any other number names is read as a term of tactics.
#[derive(Clone, Copy, PartialEq, Eq)]
pub enum Part {
    Roots,
    Entries,
    Fields,
    JobGoals,
    ProofGoals,
    Remaining,
    Body,
    JobTerm,
    ProofTerm,
    Other(u8),
}

impl Part {
    // Whether what is read is a term.
    pub fn is_term(self) -> bool
        ensures { result ≡ is_term self }
    {
        matches!(
            self,
            Part::Body | Part::JobTerm | Part::ProofTerm | Part::Other(_)
        )
    }
}

// At most so many term fields stand in a file, and so many wait.
pub const MOST_TERM_FIELDS: usize = 4096;

// What a state says of a refusal: its cause; or, where nothing was refused, a number that says nothing: 0 at the beginning of a file, and in a state made elsewhere any.
#[derive(Clone, Copy)]
pub enum Why {
    Known(Cause),
    Number(u8),
}

#[derive(Clone, Copy)]
pub struct State {
    pub mode: Mode,
    pub part: Part,
    // The place of the field to read or behind the term that was read, and the end of what encloses it.
    pub at: usize,
    pub end: usize,
    // The term fields so far, the number of fields that wait and the place of the innermost of them.
    pub fields: usize,
    pub depth: usize,
    pub top: usize,
    // The goals of the first list; the rules or uses; the definitions, opens or remaining goals.
    pub goals: usize,
    pub first: usize,
    pub second: usize,
    // The place behind what comes first, the goal list or the rules; that of the list of those remaining; and that of the definition whose body is read.
    pub from: usize,
    pub rest: usize,
    pub field: usize,
    // Of a refusal its cause and its place. In one field, as a Refusal, they take a third more time for every field that is read: its unused bytes are copied with each state.
    pub why: Why,
    pub place: usize,
}

impl State {
    // A refusal ends the reading.
    pub fn refused(self, cause: Cause, place: usize) -> State
        ensures { result ≡ refusing self cause place }
    {
        State {
            mode: Mode::Refused,
            why: Why::Known(cause),
            place,
            ..self
        }
    }

    // A part of the file at a place.
    pub fn asking(self, mode: Mode, part: Part, at: usize, end: usize) -> State
        ensures { result ≡ asking self mode part at end }
    {
        State {
            mode,
            part,
            at,
            end,
            top: at,
            ..self
        }
    }

    // Of a state after a refusal, what was refused.
    pub fn refusal(self) -> Refusal
        ensures { result ≡ refusal_of self }
    {
        let cause = match self.why {
            Why::Known(cause) => cause,
            Why::Number(_) => Cause::InputTooLong,
        };
        Refusal::new(cause, self.place)
    }

    // What was found, once there is no field left to read: the refusal, or what P keeps of the state.
    pub fn told<P: From<State>>(self) -> Result<P, Refusal>
        ensures { Told P.From.from_gives self result }
    {
        if self.mode == Mode::Refused {
            Err(self.refusal())
        } else {
            Ok(P::from(self))
        }
    }
}
