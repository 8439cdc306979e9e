// Both files read and the job run: its last state. The run that may halt and the run that goes on begin alike.
ghost use Rattle.std.specs.Prelude.{◌≤◌, length};
ghost use Rattle.format.specs.Limits.{most_steps};
ghost use Rattle.arities.specs.Layout.{space_end};
ghost use Rattle.runner.specs.LastState.{Reaches};

use crate::job::run_job;
use answers::{Answer, File};
use files::jobs::read_job;
use machine::state::State;
use whole_table::layout::READING_SCRATCH;
use whole_table::read_table;

// The last state of a run, with the places of the table's first definition and of the job's term.
#[derive(Clone, Copy)]
pub struct Reached {
    pub state: State,
    pub first: usize,
    pub term: usize,
}

// Both files, then so many steps, in a work space that is long enough; or the answer that refuses a file. Nothing of the run stands in the space yet while the files are read.
pub fn run_files(
    table: &[u8],
    job: &[u8],
    budget: usize,
    work: &mut [u8],
) -> Result<Reached, Answer>
    requires { (budget ≤ most_steps) × (space_end ≤ length work.old) }
    ensures { Reaches table.now job.now budget work.new result }
{
    let read = read_table(table, work, 0, READING_SCRATCH);
    let fields = read.map_err(|e| Answer::refused(e.cause, File::Table, e.place, 0))?;
    let read = read_job(job, work, 0);
    let parts = read.map_err(|e| Answer::refused(e.cause, File::Other, e.place, 0))?;
    let state = run_job(table, fields, job, parts, budget, work);
    Ok(Reached {
        state,
        first: fields.first,
        term: parts.term,
    })
}
