// Reading a flat file: a goal list (the roots), then use and open fields.
ghost use Rattle.std.specs.Prelude.{◌≡◌, ◌+◌, ◌≤◌, length};
ghost use Rattle.reading.specs.Waiting.{reading_room};
ghost use Rattle.files.specs.Derivations.{read_flat};
ghost use Rattle.files.specs.Shapes.{flat_kept, flat_shape};

use crate::whole::read_whole;
use format::refusals::Refusal;
use parts::state::{Part, State};

// The parts of a flat file: the number of roots, the place of the first entry, and the numbers of use and open entries.
#[derive(Clone, Copy)]
pub struct FlatParts {
    pub roots: usize,
    pub first: usize,
    pub uses: usize,
    pub opens: usize,
}

impl From<State> for FlatParts {
    ghost from_gives = { λ x p. p ≡ flat_kept x };

    fn from(x: State) -> FlatParts {
        FlatParts {
            roots: x.goals,
            first: x.from,
            uses: x.first,
            opens: x.second,
        }
    }
}

// A flat file. It has no terms, so nothing is written in the room for fields that wait.
pub fn read_flat(s: &[u8], work: &mut [u8], base: usize) -> Result<FlatParts, Refusal>
    requires { base + reading_room ≤ length work.old }
    ensures value { result ≡ flat_shape (read_flat s.now) }
    ensures work_unchanged { work.new ≡ work.old }
{
    read_whole(s, Part::Roots, work, base)
}
