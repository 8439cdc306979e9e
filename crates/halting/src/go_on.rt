// A run that goes on from a saved state.
ghost use Rattle.std.specs.Prelude.{◌≡◌, ◌≤◌, List, ℕ, length};
ghost use Rattle.std.proofs.Math.Option.{Option};
ghost use Rattle.entries.specs.Halting.{halting_work, most_frames, is_saved, resume_outcome};
ghost use Rattle.arities.specs.Layout.{space_end};
ghost use Rattle.tactics.specs.Memory.{Same};
ghost use Rattle.saver.specs.Save.{SaveGiven};
ghost use Rattle.halting.specs.Halted.{Keeps, Comes};
ghost use Rattle.halting.specs.GoOn.{GoOnGiven};

use crate::again::run_again;
use crate::halted::Halted;
use crate::same::same_state;
use answers::{Answer, File};
use format::refusals::Cause;
use lent_frames::LentFrame;
use machine::state::State;
use runner::last::Reached;
use runner::run::run_steps;
use saver::save::save;

// Whether saved bytes are those of a run's last state: they are compared with its own, which are saved behind what a run uses of the work space. A run that has ended has none.
fn is_own(s: State, saved: &[u8], work: &mut [u8], frames: &mut [LentFrame]) -> bool
    requires { SaveGiven work.old frames.old s }
    ensures value { (b : Option (List ℕ)) → Keeps work.old s b → result ≡ is_saved b saved.now }
    ensures kept { Same 0 space_end work.old work.new }
{
    match save(s, work, frames) {
        Some(end) => same_state(work, end, saved),
        None => false,
    }
}

// The state is genuine if its bytes are those of the run that was run again, and then that goes on; else the answer is 30.
fn go_on(
    again: Reached,
    table: &[u8],
    job: &[u8],
    saved: &[u8],
    budget: u32,
    work: &mut [u8],
    frames: &mut [LentFrame],
    out: &mut [u8],
) -> Halted
    requires { GoOnGiven table.now job.now saved.now budget work.old frames.old again }
    ensures { Comes (resume_outcome table.now job.now saved.now budget) out.old work.new result out.new }
{
    if !is_own(again.state, saved, work, frames) {
        let answer = Answer::refused(Cause::StateNotGenuine, File::Neither, 0, 0);
        return Halted::refused(answer);
    }
    let state = run_steps(again.state, budget as usize, table, again.first, job, work);
    Halted::answered(Reached { state, ..again }, job, work, out)
}

// The steps of the saved state run again, then those of the budget.
pub fn second_run(
    table: &[u8],
    job: &[u8],
    saved: &[u8],
    budget: u32,
    work: &mut [u8],
    frames: &mut [LentFrame],
    out: &mut [u8],
) -> Halted
    requires { (halting_work ≤ length work.old) × (most_frames ≤ length frames.old) }
    ensures { Comes (resume_outcome table.now job.now saved.now budget) out.old work.new result out.new }
{
    match run_again(table, job, saved, budget, work) {
        Ok(again) => go_on(again, table, job, saved, budget, work, frames, out),
        Err(answer) => Halted::refused(answer),
    }
}
