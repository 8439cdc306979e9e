// The entries run_halting and resume: every lent space long enough, or 29.
ghost use Rattle.std.specs.Prelude.{◌≡◌, ◌||◌, ltb};
ghost use Rattle.entries.specs.SavedState.{saved_size};
ghost use Rattle.entries.specs.Halting.{halting_work, most_frames, run_halting, resume_run};

use crate::first::first_run;
use crate::go_on::second_run;
use crate::layout::{HALTING_WORK, MOST_FRAMES};
use answers::{Answer, File};
use format::refusals::Cause;
use lent_frames::LentFrame;
use saver::layout::SAVED_SIZE;

// Whether the work space, the frames or the second space, of so many bytes, frames and bytes, are too short.
pub fn too_short(work: usize, frames: usize, state: usize) -> bool
    ensures { result ≡ (ltb work halting_work || ltb frames most_frames || ltb state saved_size) }
{
    work < HALTING_WORK || frames < MOST_FRAMES || state < SAVED_SIZE
}

// Runs the job's tactic in the table, within the budget: a proof file in the output space, or at a halt the saved state in the second space.
pub fn run_halting(
    table: &[u8],
    job: &[u8],
    budget: u32,
    work: &mut [u8],
    frames: &mut [LentFrame],
    out: &mut [u8],
    state: &mut [u8],
) -> Answer
    ensures answer { result ≡ (run_halting table.now job.now budget work.old frames.old out.old state.old).answer }
    ensures work { work.new ≡ (run_halting table.now job.now budget work.old frames.old out.old state.old).work }
    ensures frames { frames.new ≡ (run_halting table.now job.now budget work.old frames.old out.old state.old).frames }
    ensures out { out.new ≡ (run_halting table.now job.now budget work.old frames.old out.old state.old).out }
    ensures state { state.new ≡ (run_halting table.now job.now budget work.old frames.old out.old state.old).state }
{
    if too_short(work.len(), frames.len(), state.len()) {
        return Answer::refused(Cause::WorkTooShort, File::Neither, 0, 0);
    }
    let h = first_run(table, job, budget, work, out);
    h.finish(work, frames, state)
}

// Goes on from a saved state, within the budget. The saved bytes are compared with those of the first steps run again.
pub fn resume(
    table: &[u8],
    job: &[u8],
    saved: &[u8],
    budget: u32,
    work: &mut [u8],
    frames: &mut [LentFrame],
    out: &mut [u8],
    state: &mut [u8],
) -> Answer
    ensures answer { result ≡ (resume_run table.now job.now saved.now budget work.old frames.old out.old state.old).answer }
    ensures work { work.new ≡ (resume_run table.now job.now saved.now budget work.old frames.old out.old state.old).work }
    ensures frames { frames.new ≡ (resume_run table.now job.now saved.now budget work.old frames.old out.old state.old).frames }
    ensures out { out.new ≡ (resume_run table.now job.now saved.now budget work.old frames.old out.old state.old).out }
    ensures state { state.new ≡ (resume_run table.now job.now saved.now budget work.old frames.old out.old state.old).state }
{
    if too_short(work.len(), frames.len(), state.len()) {
        return Answer::refused(Cause::WorkTooShort, File::Neither, 0, 0);
    }
    let h = second_run(table, job, saved, budget, work, frames, out);
    h.finish(work, frames, state)
}
