// A job searched in a table that stands: its first state, its steps, and what its last state leaves in the output space.
ghost use Rattle.std.specs.Prelude.{◌≡◌, ◌+◌, ◌*◌};
ghost use Rattle.search_machine.specs.declared.state.Mode.TheVariants as is;
ghost use Rattle.searcher.specs.Jobs.{StartGiven, Starts, FinishGiven, Finishes, JobGiven, JobRan};

use answers::{Answer, File};
use files::jobs::JobParts;
use format::refusals::Cause;
use outline::write::write_outlined;
use search_machine::layout::{ARENA_LOW, SPACE_END};
use search_machine::state::{Mode, State};
use search_machine::step::search_steps;
use tactics::file::write_file;
use words::copy_in;

// The job's term on its goals, nothing begun.
fn start(below: u16, job: &[u8], parts: JobParts, work: &mut [u8]) -> State
    requires { StartGiven below job.now parts work.old }
    ensures { Starts below job.now parts work.old work.new result }
{
    copy_in(work, ARENA_LOW, job, 3, parts.goals * 2);
    State {
        mode: Mode::Running,
        level: below * 2 + 1,
        at: parts.term,
        start: ARENA_LOW,
        count: parts.goals,
        link: 0,
        choice: 0,
        arena: ARENA_LOW + parts.goals * 2,
        outline: 0,
        steps: 0,
    }
}

// The answer of a search that found an evaluation: 26, or the proof file written.
fn finish_found(s: State, job: &[u8], term: usize, work: &mut [u8], out: &mut [u8]) -> Answer
    requires { (s.mode ≡ is.Gave) × FinishGiven job.now term work.old s }
    ensures { Finishes job.now work.old s out.old result out.new }
{
    let from = write_outlined(work, s.outline, SPACE_END);
    let bytes = SPACE_END - from;
    let size = term + bytes + 3 + s.count * 2;
    if out.len() < size {
        return Answer::refused(Cause::OutputTooShort, File::Neither, 0, s.steps);
    }
    write_file(job, term, work, from, bytes, s.start, s.count, out);
    Answer::wrote(size, s.steps)
}

// The answer of a search, by its last state.
fn finish(s: State, job: &[u8], term: usize, work: &mut [u8], out: &mut [u8]) -> Answer
    requires { FinishGiven job.now term work.old s }
    ensures { Finishes job.now work.old s out.old result out.new }
{
    match s.mode {
        Mode::Gave => finish_found(s, job, term, work, out),
        Mode::Running => Answer::refused(Cause::BudgetSpent, File::Neither, 0, s.steps),
        Mode::Lost => Answer::refused(Cause::NoEvaluation, File::Neither, 0, s.steps),
    }
}

// A job that was read, in a table that was read.
pub fn search_job(
    table: &[u8],
    first: usize,
    job: &[u8],
    parts: JobParts,
    below: u16,
    budget: usize,
    work: &mut [u8],
    out: &mut [u8],
) -> Answer
    requires { JobGiven table.now first job.now parts below budget work.old }
    ensures { JobRan table.now first job.now parts below budget out.old result out.new }
{
    let s = start(below, job, parts, work);
    let r = search_steps(s, budget, table, first, job, work);
    finish(r, job, parts.term, work, out)
}
