// The head of the saved state: the step count, the fields finished so far with their length, and the number of terms.
ghost use Rattle.saver.specs.Head.{HeadGiven, Heads};

use crate::finished::write_finished;
use arities::layout::SPACE_END;
use machine::state::State;
use words::store16;

// Written from where the part that a run uses ends; so many terms wait, and one is to begin. The length of the fields is known once they are written.
pub fn write_head(work: &mut [u8], s: State, waiting: usize) -> usize
    requires { HeadGiven work.old s waiting }
    ensures { Heads work.old s waiting result work.new }
{
    let end = write_finished(work, s.top, s.out, SPACE_END + 4);
    store16(work, SPACE_END + 2, (end - (SPACE_END + 4)) as u16);
    store16(work, SPACE_END, s.steps as u16);
    store16(work, end, (waiting + 1) as u16);
    end + 2
}
