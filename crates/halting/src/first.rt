// The first run of a job, which may halt.
ghost use Rattle.std.specs.Prelude.{◌≤◌, length};
ghost use Rattle.arities.specs.Layout.{space_end};
ghost use Rattle.entries.specs.Halting.{halting_outcome};
ghost use Rattle.halting.specs.Halted.{Comes};

use crate::again::over_limit;
use crate::halted::Halted;
use answers::{Answer, File};
use format::refusals::Cause;
use runner::last::run_files;

// 25 before any reading, then the files and the steps.
pub fn first_run(table: &[u8], job: &[u8], budget: u32, work: &mut [u8], out: &mut [u8]) -> Halted
    requires { space_end ≤ length work.old }
    ensures { Comes (halting_outcome table.now job.now budget) out.old work.new result out.new }
{
    if over_limit(0, budget) {
        let answer = Answer::refused(Cause::BudgetTooLarge, File::Neither, 0, 0);
        return Halted::refused(answer);
    }
    match run_files(table, job, budget as usize, work) {
        Ok(last) => Halted::answered(last, job, work, out),
        Err(answer) => Halted::refused(answer),
    }
}
