// The entry search: table, job, height, budget, work space and output space in, one answer out.
ghost use Rattle.std.specs.Prelude.{◌≡◌, ◌≤◌, ◌<◌, suc, length};
ghost use Rattle.format.specs.Limits.{most_search_steps};
ghost use Rattle.entries.specs.Search.{search_outcome, search_tactic};
ghost use Rattle.entries.specs.Left.{kept, left_in};
ghost use Rattle.search_machine.specs.Layout.{space_end};

use crate::job::search_job;
use answers::{Answer, File};
use files::jobs::read_job;
use format::refusals::Cause;
use search_machine::layout::{RULES_PLACE, SPACE_END};
use whole_table::read_table;
use words::clear;

// Both files, within the limits of budget and height, in a work space that is long enough.
fn search_files(
    table: &[u8],
    job: &[u8],
    below: u16,
    budget: usize,
    work: &mut [u8],
    out: &mut [u8],
) -> Answer
    requires { (budget ≤ most_search_steps) × (below < 64) × (space_end ≤ length work.old) }
    ensures { kept result out.new ≡ left_in out.old (search_outcome table.now job.now (suc below) budget) }
{
    match read_table(table, work, 0, RULES_PLACE) {
        Err(e) => Answer::refused(e.cause, File::Table, e.place, 0),
        Ok(fields) => match read_job(job, work, 0) {
            Err(e) => Answer::refused(e.cause, File::Other, e.place, 0),
            Ok(parts) => search_job(table, fields.first, job, parts, below, budget, work, out),
        },
    }
}

// 25, then 42, before any reading.
fn search_limits(
    table: &[u8],
    job: &[u8],
    height: u32,
    budget: u32,
    work: &mut [u8],
    out: &mut [u8],
) -> Answer
    requires { space_end ≤ length work.old }
    ensures { kept result out.new ≡ left_in out.old (search_outcome table.now job.now height budget) }
{
    if 4096 < budget {
        return Answer::refused(Cause::BudgetTooLarge, File::Neither, 0, 0);
    }
    if height < 1 || 64 < height {
        return Answer::refused(Cause::HeightOutside, File::Neither, 0, 0);
    }
    search_files(table, job, (height - 1) as u16, budget as usize, work, out)
}

// Searches the job's evaluations in the table: the proof file in the output space, or the refusal; 29 before anything else.
pub fn search(
    table: &[u8],
    job: &[u8],
    height: u32,
    budget: u32,
    work: &mut [u8],
    out: &mut [u8],
) -> Answer
    ensures value { result ≡ (search_tactic table.now job.now height budget work.old out.old).answer }
    ensures work_after { work.new ≡ (search_tactic table.now job.now height budget work.old out.old).work }
    ensures out_after { out.new ≡ (search_tactic table.now job.now height budget work.old out.old).out }
{
    if work.len() < SPACE_END {
        return Answer::refused(Cause::WorkTooShort, File::Neither, 0, 0);
    }
    let answer = search_limits(table, job, height, budget, work, out);
    clear(work);
    answer
}
