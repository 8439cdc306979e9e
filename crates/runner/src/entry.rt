// The entry run: table, job, budget, work space and output space in, one answer out.
ghost use Rattle.std.specs.Prelude.{◌≡◌, ◌≤◌, length};
ghost use Rattle.entries.specs.Run.{run_outcome, run_tactic};
ghost use Rattle.entries.specs.Left.{kept, left_in};
ghost use Rattle.arities.specs.Layout.{space_end};

use crate::last::run_files;
use answers::{Answer, File};
use arities::layout::SPACE_END;
use format::refusals::Cause;
use words::clear;

// 25 before any reading.
fn run_budget(table: &[u8], job: &[u8], budget: u32, work: &mut [u8], out: &mut [u8]) -> Answer
    requires { space_end ≤ length work.old }
    ensures { kept result out.new ≡ left_in out.old (run_outcome table.now job.now budget) }
{
    if 16384 < budget {
        return Answer::refused(Cause::BudgetTooLarge, File::Neither, 0, 0);
    }
    match run_files(table, job, budget as usize, work) {
        Ok(last) => last.finish(job, work, out),
        Err(answer) => answer,
    }
}

// Runs the job in the table: the proof file in the output space, or the refusal; 29 before anything else.
pub fn run(table: &[u8], job: &[u8], budget: u32, work: &mut [u8], out: &mut [u8]) -> Answer
    ensures value { result ≡ (run_tactic table.now job.now budget work.old out.old).answer }
    ensures work_after { work.new ≡ (run_tactic table.now job.now budget work.old out.old).work }
    ensures out_after { out.new ≡ (run_tactic table.now job.now budget work.old out.old).out }
{
    if work.len() < SPACE_END {
        return Answer::refused(Cause::WorkTooShort, File::Neither, 0, 0);
    }
    let answer = run_budget(table, job, budget, work, out);
    clear(work);
    answer
}
