// A walk from its beginning to its end.
ghost use Rattle.std.specs.Prelude.{◌<◌};
ghost use Rattle.arity_notes.specs.Walks.{Given, Turns, Walks};

use crate::walk::{Next, Walk};

// Each turn leaves less to do, and there are at most 65,536 bytes of terms and of what waits.
const MOST_TURNS: usize = 65537;

impl Walk {
    // A term is asked, or an arity is told.
    fn turn(self, table: &[u8], first: usize, src: &[u8], base: usize, work: &mut [u8]) -> Walk
        requires { Given table.now first src.now base work.old self × (0 < self.top) }
        ensures { Turns table.now first src.now base work.old self work.new result }
    {
        match self.next {
            Next::Asks(at) => self.ask(at, table, first, src, base, work),
            Next::Tells(arity) => self.answer(arity, src, base, work),
        }
    }
}

// Turns until nothing waits.
pub fn walk(from: Walk, table: &[u8], first: usize, src: &[u8], base: usize, work: &mut [u8])
    requires { Given table.now first src.now base work.old from }
    ensures { Walks table.now first src.now base work.old from work.new }
{
    let mut s = from;
    for _ in 0..MOST_TURNS {
        if s.top == 0 {
            return;
        }
        s = s.turn(table, first, src, base, work);
    }
}
