// What the last state of a run leaves in the output space, and the answer.
ghost use Rattle.std.specs.Prelude.{◌≡◌};
ghost use Rattle.machine.specs.declared.state.Mode.TheVariants as is;
ghost use Rattle.runner.specs.Jobs.{FinishGiven, Finishes};

use crate::last::Reached;
use answers::{Answer, File};
use format::refusals::Cause;
use machine::state::Mode;
use tactics::file::write_file;

impl Reached {
    // The answer of a run that succeeded: 26, or the proof file written.
    fn finish_proved(self, job: &[u8], work: &[u8], out: &mut [u8]) -> Answer
        requires { (self.state.mode ≡ is.Proved) × FinishGiven job.now self.term work.now self.state }
        ensures { Finishes job.now work.now self.state out.old result out.new }
    {
        let s = self.state;
        let size = self.term + s.out + 3 + s.count * 2;
        if out.len() < size {
            return Answer::refused(Cause::OutputTooShort, File::Neither, 0, s.steps);
        }
        write_file(job, self.term, work, 0, s.out, s.start, s.count, out);
        Answer::wrote(size, s.steps)
    }

    // The answer of a run, by its last state.
    pub fn finish(self, job: &[u8], work: &[u8], out: &mut [u8]) -> Answer
        requires { FinishGiven job.now self.term work.now self.state }
        ensures { Finishes job.now work.now self.state out.old result out.new }
    {
        let steps = self.state.steps;
        match self.state.mode {
            Mode::Proved => self.finish_proved(job, work, out),
            Mode::Running => Answer::refused(Cause::BudgetSpent, File::Neither, 0, steps),
            Mode::Failed => Answer::refused(Cause::TacticFailed, File::Neither, 0, steps),
            Mode::Overflowed => Answer::refused(Cause::JoinedTooLong, File::Neither, 0, steps),
            Mode::Exceeded => Answer::refused(Cause::FieldsTooMany, File::Neither, 0, steps),
            Mode::Other(_) => Answer::refused(Cause::FieldsTooMany, File::Neither, 0, steps),
        }
    }
}
