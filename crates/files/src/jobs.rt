// Reading a job file: a goal list, then one term.
ghost use Rattle.std.specs.Prelude.{◌≡◌, ◌+◌, ◌≤◌, length};
ghost use Rattle.words.specs.Kept.{Kept};
ghost use Rattle.reading.specs.Waiting.{reading_room};
ghost use Rattle.files.specs.Jobs.{read_job};
ghost use Rattle.files.specs.Shapes.{job_kept, job_shape};

use crate::whole::read_whole;
use format::refusals::Refusal;
use parts::state::{Part, State};

// The parts of a job: the number of goals and the place of the term.
#[derive(Clone, Copy)]
pub struct JobParts {
    pub goals: usize,
    pub term: usize,
}

impl From<State> for JobParts {
    ghost from_gives = { λ x p. p ≡ job_kept x };

    fn from(x: State) -> JobParts {
        JobParts {
            goals: x.goals,
            term: x.from,
        }
    }
}

// A job file; nothing may be left behind its term. While that is read its fields wait in work, from base on.
pub fn read_job(s: &[u8], work: &mut [u8], base: usize) -> Result<JobParts, Refusal>
    requires { base + reading_room ≤ length work.old }
    ensures value { result ≡ job_shape (read_job s.now) }
    ensures kept { Kept work.old work.new base (base + reading_room) }
{
    read_whole(s, Part::JobGoals, work, base)
}
