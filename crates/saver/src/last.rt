// The end of the saved state's contents: the term to begin with all its goals.
ghost use Rattle.saver.specs.Put.{Writes};
ghost use Rattle.saver.specs.Last.{last_bytes, LastGiven};

use crate::waiting::write_frame;
use lent_frames::LentFrame;
use machine::state::State;

// The stage of the term to begin.
const TO_BEGIN: u16 = 0;

// The zeros behind it are not written here: what is compared with a saved state needs none, and what is handed over gets them where it goes.
pub fn write_last(work: &mut [u8], s: State, to: usize) -> usize
    requires { LastGiven work.old s to }
    ensures { Writes work.old to (last_bytes work.old s) result work.new }
{
    let f = LentFrame {
        term: (s.file as u32) * 65536 + (s.at as u32),
        goals: s.start as u32,
        count: s.count as u16,
        stage: TO_BEGIN,
    };
    write_frame(work, to, f)
}
