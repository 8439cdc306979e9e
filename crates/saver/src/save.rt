// The contents of the saved state of a halted run.
// Document 02, P1: the frames are lent for the waiting terms.
ghost use Rattle.saver.specs.Save.{SaveGiven, Saves};

use crate::gather::gather;
use crate::head::write_head;
use crate::last::write_last;
use crate::waiting::write_waiting;
use lent_frames::LentFrame;
use machine::state::{Mode, State};

// A run that halted: all of it behind what the run uses of the work space, and where it ends. Any other run: nothing. The frames hold what was gathered: an entry that saves twice clears them once.
pub fn save(s: State, work: &mut [u8], frames: &mut [LentFrame]) -> Option<usize>
    requires { SaveGiven work.old frames.old s }
    ensures { Saves work.old s result work.new }
{
    if s.mode != Mode::Running {
        return None;
    }
    let n = gather(work, frames, s.top, s.count);
    let to = write_head(work, s, n);
    let end = write_waiting(work, frames, n, to);
    Some(write_last(work, s, end))
}
