// The end of an entry that may halt.
ghost use Rattle.std.specs.Prelude.{◌≡◌, List, ℕ, length, replicate};
ghost use Rattle.std.proofs.Math.Option.{Option};
ghost use Rattle.entries.specs.Halting.{cleared_frames, save_in};
ghost use Rattle.halting.specs.Halted.{KeepsLast};
ghost use Rattle.halting.specs.Finish.{HandGiven};

use crate::halted::Halted;
use answers::Answer;
use arities::layout::SPACE_END;
use lent_frames::{LentFrame, clear_frames};
use machine::state::State;
use saver::layout::SAVED_SIZE;
use saver::save::save;
use words::{clear, copy_in};

// At a halt the contents of the saved state are copied from the work space into the second space, and zeros behind them reach up to the size of every saved state.
fn hand_over(last: Option<State>, work: &mut [u8], frames: &mut [LentFrame], state: &mut [u8])
    requires { HandGiven last work.old frames.old state.old }
    ensures { (b : Option (List ℕ)) → KeepsLast work.old last b → state.new ≡ save_in state.old b }
{
    let Some(s) = last else {
        return;
    };
    let Some(end) = save(s, work, frames) else {
        return;
    };
    let n = end - SPACE_END;
    copy_in(state, 0, work, SPACE_END, n);
    clear(&mut state[n..SAVED_SIZE]);
}

impl Halted {
    // The second space; then the work space and the frames are cleared, once: each call of save leaves frames that the next one overwrites.
    pub fn finish(self, work: &mut [u8], frames: &mut [LentFrame], state: &mut [u8]) -> Answer
        requires { HandGiven self.state work.old frames.old state.old }
        ensures value { result ≡ self.answer }
        ensures work_after { work.new ≡ replicate (length work.old) 0 }
        ensures frames_after { frames.new ≡ cleared_frames frames.old }
        ensures state_after { (b : Option (List ℕ)) → KeepsLast work.old self.state b → state.new ≡ save_in state.old b }
    {
        hand_over(self.state, work, frames, state);
        clear_frames(frames);
        clear(work);
        self.answer
    }
}
