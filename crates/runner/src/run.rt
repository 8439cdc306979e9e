// The machine's run: its steps, one after another.
ghost use Rattle.std.specs.Prelude.{◌≡◌, ◌+◌};
ghost use Rattle.runner.specs.Run.{Started, Ran};

use machine::state::{Mode, State};

// At most so many steps; a term that is still to begin afterwards says that the budget is spent.
pub fn run_steps(
    from: State,
    budget: usize,
    table: &[u8],
    first: usize,
    job: &[u8],
    work: &mut [u8],
) -> State
    requires { Started table.now first job.now work.old from budget }
    ensures { Ran table.now first job.now work.old from budget work.new result }
{
    let mut s = from;
    for _ in 0..budget {
        if s.mode != Mode::Running {
            return s;
        }
        s = s.step(table, first, job, work);
    }
    s
}
