// A job run in a table that stands: its first state, and its steps.
ghost use Rattle.std.specs.Prelude.{◌≡◌, ◌+◌, ◌*◌};
ghost use Rattle.runner.specs.Jobs.{StartGiven, Starts, JobGiven, JobRan};

use crate::run::run_steps;
use arities::layout::{FRAMES_END, OUTPUT_END};
use arities::rounds::fill_arities;
use files::jobs::JobParts;
use machine::state::{Mode, State};
use tables::fields::TableParts;
use words::copy_in;

// The job's term on its goals, nothing begun.
fn start(job: &[u8], parts: JobParts, work: &mut [u8]) -> State
    requires { StartGiven job.now parts work.old }
    ensures { Starts job.now parts work.old work.new result }
{
    copy_in(work, OUTPUT_END, job, 3, parts.goals * 2);
    State {
        mode: Mode::Running,
        file: 1,
        at: parts.term,
        start: OUTPUT_END,
        count: parts.goals,
        top: FRAMES_END,
        arena: OUTPUT_END + parts.goals * 2,
        out: 0,
        held: 0,
        steps: 0,
    }
}

// A job that was read, in a table that was read: its last state.
pub fn run_job(
    table: &[u8],
    fields: TableParts,
    job: &[u8],
    parts: JobParts,
    budget: usize,
    work: &mut [u8],
) -> State
    requires { JobGiven table.now fields.first fields.definitions job.now parts budget work.old }
    ensures { JobRan table.now fields.first fields.definitions job.now parts budget work.new result }
{
    fill_arities(table, fields.first, fields.definitions, work);
    let s = start(job, parts, work);
    run_steps(s, budget, table, fields.first, job, work)
}
