// The steps of a saved state run again, from the beginning.
ghost use Rattle.std.specs.Prelude.{◌≡◌, ◌+◌, ◌≤◌, ltb, length};
ghost use Rattle.format.specs.Limits.{most_steps};
ghost use Rattle.arities.specs.Layout.{space_end};
ghost use Rattle.entries.specs.Halting.{steps_of};
ghost use Rattle.halting.specs.Again.{Again};

use answers::{Answer, File};
use format::refusals::Cause;
use runner::last::{Reached, run_files};
use words::load16;

// The step count of a saved state: 0 if the state is too short to hold one.
fn steps_of(saved: &[u8]) -> u16
    ensures { result ≡ steps_of saved.now }
{
    if saved.len() < 2 { 0 } else { load16(saved, 0) }
}

// Whether the steps of a state, if there is one, and those that are to follow are too many together. The budget alone may be all that 32 bits hold.
pub fn over_limit(steps: u16, budget: u32) -> bool
    ensures { result ≡ ltb most_steps (steps + budget) }
{
    16384 < (steps as u64) + (budget as u64)
}

// 25 before any reading, then the files and the steps of the state; or the answer that refuses one of them. A run that ends within those steps halted nowhere, so that the state is not genuine, and 30 is what resume comes to.
pub fn run_again(
    table: &[u8],
    job: &[u8],
    saved: &[u8],
    budget: u32,
    work: &mut [u8],
) -> Result<Reached, Answer>
    requires { space_end ≤ length work.old }
    ensures { Again table.now job.now saved.now budget work.new result }
{
    let held = steps_of(saved);
    if over_limit(held, budget) {
        return Err(Answer::refused(Cause::BudgetTooLarge, File::Neither, 0, 0));
    }
    run_files(table, job, held as usize, work)
}
