// The machine's control state, and its step.
ghost use Rattle.std.specs.Prelude.{◌≡◌, ◌+◌};
ghost use Rattle.tactics.specs.Source.{source};
ghost use Rattle.machine.specs.Step.{Given, Stepped, Grown};

// How a state stands: a term is to begin; or the last one ended with a proof, failed, or ended the run, by a joined list (22) or by the fields held (40).
#[derive(Clone, Copy, PartialEq, Eq)]
pub enum Mode {
    Running,
    Proved,
    Failed,
    Overflowed,
    Exceeded,
    // Any other number. No run comes to one, but save and write_last of crate saver take a state of whatever mode.
    Other(u8),
}

// The most fields of finished terms that a run may hold.
pub const MOST_HELD: usize = 4096;

// The next term to begin, by its file (0 the table, 1 the job) and place, with its goals; or how the last one ended, with the goals that it gave.
// The frame of the innermost term that waits is at `top`; goals lie below `arena`, the hiproof so far below `out`. The fields of finished terms that are still
// part of the run are counted (`held`), and so are the terms begun.
#[derive(Clone, Copy)]
pub struct State {
    pub mode: Mode,
    pub file: u16,
    pub at: usize,
    pub start: usize,
    pub count: usize,
    pub top: usize,
    pub arena: usize,
    pub out: usize,
    pub held: usize,
    pub steps: usize,
}

impl State {
    // One term of a file begun, then the next term to begin or the end of the run.
    fn step_in(self, table: &[u8], first: usize, src: &[u8], work: &mut [u8]) -> State
        requires { Given table.now first src.now work.old self }
        ensures steps { Stepped table.now first src.now work.old self work.new result }
        ensures grown { Grown work.old self work.new result }
    {
        let s = self.begin(table, first, src, work);
        match s.mode {
            Mode::Running => s,
            _ => s.unwind(work),
        }
    }

    // A step begins one term and leaves the next state.
    pub fn step(self, table: &[u8], first: usize, job: &[u8], work: &mut [u8]) -> State
        requires { Given table.now first (source table.now job.now self.file) work.old self }
        ensures steps { Stepped table.now first (source table.now job.now self.file) work.old self work.new result }
        ensures grown { Grown work.old self work.new result }
    {
        let src = if self.file == 0 { table } else { job };
        self.step_in(table, first, src, work)
    }
}
