// Reading a proof file: a goal list, one hiproof, a goal list of those remaining.
ghost use Rattle.std.specs.Prelude.{◌≡◌, ◌+◌, ◌≤◌, length};
ghost use Rattle.words.specs.Kept.{Kept};
ghost use Rattle.reading.specs.Waiting.{reading_room};
ghost use Rattle.files.specs.Proofs.{read_proof_fields, proof_bytes, empty_proof, or_empty_proof};
ghost use Rattle.files.specs.Shapes.{proof_kept, proof_shape};

use crate::whole::read_whole;
use format::refusals::Refusal;
use parts::state::{Part, State};

// The parts of a proof: the number of goals, the place of the term, the place of the remaining list, which is the term's end, and the number of remaining goals.
#[derive(Clone, Copy)]
pub struct ProofParts {
    pub goals: usize,
    pub term: usize,
    pub rest: usize,
    pub remaining: usize,
}

impl From<State> for ProofParts {
    ghost from_gives = { λ x p. p ≡ proof_kept x };

    fn from(x: State) -> ProofParts {
        ProofParts {
            goals: x.goals,
            term: x.from,
            rest: x.rest,
            remaining: x.second,
        }
    }
}

// The nine bytes of the proof that zero bytes mean.
const EMPTY_PROOF: [u8; 9] = [3, 0, 0, 21, 0, 0, 3, 0, 0];

pub fn empty_proof() -> [u8; 9]
    ensures { result ≡ proof_bytes empty_proof }
{
    EMPTY_PROOF
}

// The bytes that are read of a proof file: its own, or, in the place of none, those of the empty proof. There are no statics, so these are lent, by every entry that takes a proof file.
pub fn or_empty_proof<'a>(s: &'a [u8], empty: &'a [u8]) -> &'a [u8]
    requires { empty.now ≡ proof_bytes empty_proof }
    ensures { result.now ≡ or_empty_proof s.now }
{
    if s.is_empty() { empty } else { s }
}

// The fields of a proof file; nothing may be left behind its last list. Whether the proof is right is not asked here. While its term is read the fields of it wait in work, from base on.
pub fn read_proof_fields(s: &[u8], work: &mut [u8], base: usize) -> Result<ProofParts, Refusal>
    requires { base + reading_room ≤ length work.old }
    ensures value { result ≡ proof_shape (read_proof_fields s.now) }
    ensures kept { Kept work.old work.new base (base + reading_room) }
{
    read_whole(s, Part::ProofGoals, work, base)
}
