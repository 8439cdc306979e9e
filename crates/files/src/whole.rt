// Reading a file from its first part to its end.
ghost use Rattle.std.specs.Prelude.{◌≡◌};
ghost use Rattle.parts.specs.declared.state.State.{State};
ghost use Rattle.parts.specs.declared.state.Mode.TheVariants.{Reads};
ghost use Rattle.parts.specs.States.{begun_file, Told};
ghost use Rattle.reading.specs.Reading.{Reading, Reaches};

use format::refusals::Refusal;
use parts::begin_file;
use parts::state::{Part, State};
use reading::read_on;

// What a file that begins with this part tells once there is no field left to read: a refusal, or what P keeps of the last state. While a term is read its fields wait in work, from base on.
pub fn read_whole<P: From<State>>(
    s: &[u8],
    part: Part,
    work: &mut [u8],
    base: usize,
) -> Result<P, Refusal>
    requires { Reading s.now work.old base (begun_file s.now part) }
    ensures { (x : State) × Reaches s.now base work.old (begun_file s.now part) work.new x × (x.mode ≡ Reads → ⊥) × Told P.From.from_gives x result }
{
    read_on(s, begin_file(s, part), work, base).told()
}
