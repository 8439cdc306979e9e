// Reading a file: one reader moves through it, from each field to the next; the fields around an inner term wait in lent bytes.
// Document 01, "The reader moves over the file one field at a time", and of "What the bytes bring about" what a file can be refused for: 1 to 5.
#![tactic(auto)]

pub mod reader;
pub mod waiting;

ghost use Rattle.std.specs.Prelude.{◌≡◌};
ghost use Rattle.parts.specs.declared.state.Mode.TheVariants.{Reads};
ghost use Rattle.reading.specs.Reading.{Reading, ReadsOn, Step, Reaches};

use crate::reader::Reader;
use crate::waiting::turn_within;
use format::headers::Header;
use format::refusals::Refusal;
use parts::state::{Mode, State};

// From a header to the next place where a field is to be read, if there is one.
// The lent bytes and the place where theirs begin stay two parameters: a struct of both would hold a `&mut`, and the contracts, which name both, would be no shorter.
fn turn(x: State, header: Result<Header, Refusal>, s: &[u8], work: &mut [u8], base: usize) -> State
    requires { ReadsOn s.now work.old base x header }
    ensures { Step s.now work.old base x work.new result }
{
    if !x.part.is_term() {
        return x.take(header, s);
    }
    let r = turn_within(x, header, s, work, base);
    if r.mode == Mode::Gave {
        return r.behind_term(s);
    }
    r
}

// Reads on from a state to the end of the file or to a refusal.
pub fn read_on(file: &[u8], start: State, work: &mut [u8], base: usize) -> State
    requires { Reading file.now work.old base start }
    ensures { Reaches file.now base work.old start work.new result × (result.mode ≡ Reads → ⊥) }
{
    let mut reader = Reader::new(file, start.at, start.end);
    let mut x = start;
    while x.mode == Mode::Reads {
        let header = reader.header(x.low().number(), x.high().number(), x.is_full(file));
        x = turn(x, header, file, work, base);
        reader = reader.to(x.at, x.end);
    }
    x
}
