// What a call of an entry that may halt has come to.
ghost use Rattle.std.specs.Prelude.{◌≡◌};
ghost use Rattle.runner.specs.Jobs.{FinishGiven};
ghost use Rattle.halting.specs.Halted.{refused_call, Answered};

use answers::Answer;
use machine::state::State;
use runner::last::Reached;

// The answer so far, and the last state of the run, if there was one; the run halted if a term is to begin in it.
#[derive(Clone, Copy)]
pub struct Halted {
    pub answer: Answer,
    pub state: Option<State>,
}

impl Halted {
    // A call that is refused before the first step.
    pub fn refused(answer: Answer) -> Halted
        ensures { result ≡ refused_call answer }
    {
        Halted {
            answer,
            state: None,
        }
    }

    // The answer of a run by its last state, with the proof file of a success.
    pub fn answered(last: Reached, job: &[u8], work: &[u8], out: &mut [u8]) -> Halted
        requires { FinishGiven job.now last.term work.now last.state }
        ensures { Answered last.state job.now work.now out.old result out.new }
    {
        Halted {
            answer: last.finish(job, work, out),
            state: Some(last.state),
        }
    }
}
