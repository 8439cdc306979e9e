// From the end of a term to the next term to begin, or to the end of the run: one function for each kind of term that waits.
ghost use Rattle.std.specs.Prelude.{◌≡◌, ◌+◌, ◌≤◌};
ghost use Rattle.arities.specs.Layout.{frames_end};
ghost use Rattle.machine.specs.declared.state.Mode.TheVariants as is;
ghost use Rattle.machine.specs.Popping.{Waiting, Loaded, Popped, Smaller, Unwinding, Unwound, Fewer, Closing, Closes, Joins, leave, ended_by};

use crate::state::{MOST_HELD, Mode, State};
use arities::layout::FRAMES_END;
use frames::{
    ALTERNATION_LEFT, Frame, SEQUENCE_LEFT, SEQUENCE_RIGHT, TENSOR_LEFT, TENSOR_RIGHT, load_frame,
    store_frame,
};
use tactics::goals::join_goals;
use words::store16;

impl State {
    // The same without its first frame.
    fn leave(self) -> State
        requires { self.top ≤ frames_end }
        ensures { result ≡ leave self }
    {
        State {
            top: self.top + 19,
            ..self
        }
    }

    // A term failed: an alternation begins its right term on the same goals, with what was held when it began; every other term that waits fails too.
    fn pop_failed(self, work: &[u8]) -> State
        requires { (self.mode ≡ is.Failed) × Waiting work.now self }
        ensures popped { Popped work.now self work.now result }
        ensures smaller { Smaller work.now self work.now result }
    {
        let f = load_frame(work, self.top);
        if f.kind != ALTERNATION_LEFT {
            return self.leave();
        }
        State {
            mode: Mode::Running,
            file: f.file,
            at: f.at as usize,
            start: f.start,
            count: f.count as usize,
            top: self.top + 19,
            arena: f.arena,
            out: f.mark,
            held: f.held as usize,
            ..self
        }
    }

    // A term proved its goals: a sequence or a tensor begins its right term or ends, an alternation's choice stands, and the field of a label is closed.
    fn pop_proved(self, work: &mut [u8]) -> State
        requires { (self.mode ≡ is.Proved) × Waiting work.old self }
        ensures popped { Popped work.old self work.new result }
        ensures smaller { Smaller work.old self work.new result }
    {
        let f = load_frame(work, self.top);
        match f.kind {
            SEQUENCE_LEFT => self.turn(work, f),
            TENSOR_LEFT => self.turn_beside(work, f),
            TENSOR_RIGHT => self.join(work, f),
            ALTERNATION_LEFT => self.leave(),
            _ => self.close(work, f),
        }
    }

    // A label's or a sequence's field is closed; 40 if one more cannot be held.
    fn close(self, work: &mut [u8], f: Frame) -> State
        requires { Loaded work.old self f × Closing f.kind × Closes self f }
        ensures popped { Popped work.old self work.new result }
        ensures smaller { Smaller work.old self work.new result }
    {
        let held = self.held + 1;
        if MOST_HELD < held {
            return self.limit(Mode::Exceeded);
        }
        store16(work, f.mark + 1, (self.out - f.mark - 3) as u16);
        State {
            mode: Mode::Proved,
            top: self.top + 19,
            held,
            ..self
        }
    }

    // A sequence's left term proved its goals: its right term is next, on what the left gave.
    fn turn(self, work: &mut [u8], f: Frame) -> State
        requires { Loaded work.old self f × (f.kind ≡ 2) }
        ensures popped { Popped work.old self work.new result }
        ensures smaller { Smaller work.old self work.new result }
    {
        let g = Frame {
            kind: SEQUENCE_RIGHT,
            count: self.count as u16,
            start: self.start,
            ..f
        };
        store_frame(work, self.top, g);
        State {
            mode: Mode::Running,
            file: f.file,
            at: f.at as usize,
            ..self
        }
    }

    // A tensor's left term proved its goals: its right term is next, on the goals that the frame kept for it.
    fn turn_beside(self, work: &mut [u8], f: Frame) -> State
        requires { Loaded work.old self f × (f.kind ≡ 4) }
        ensures popped { Popped work.old self work.new result }
        ensures smaller { Smaller work.old self work.new result }
    {
        let g = Frame {
            kind: TENSOR_RIGHT,
            count: self.count as u16,
            start: self.start,
            ..f
        };
        store_frame(work, self.top, g);
        State {
            mode: Mode::Running,
            file: f.file,
            at: f.at as usize,
            start: f.start,
            count: f.count as usize,
            ..self
        }
    }

    // A tensor's right term proved its goals: the two lists are joined and its field is closed; 22 if they are too many, 40 if one more field cannot be held.
    #[tactic(auto, using(crate::proofs::JoinLaws::overflow_end, crate::proofs::JoinLaws::exceed_end))]
    fn join(self, work: &mut [u8], f: Frame) -> State
        requires { Loaded work.old self f × (f.kind ≡ 5) × Joins self f }
        ensures popped { Popped work.old self work.new result }
        ensures smaller { Smaller work.old self work.new result }
    {
        let left = f.count as usize;
        let count = left + self.count;
        if 256 < count {
            return self.limit(Mode::Overflowed);
        }
        if MOST_HELD <= self.held {
            return self.limit(Mode::Exceeded);
        }
        join_goals(
            work, f.arena, self.arena, f.start, left, self.start, self.count,
        );
        store16(work, f.mark + 1, (self.out - f.mark - 3) as u16);
        State {
            mode: Mode::Proved,
            start: f.arena,
            count,
            top: self.top + 19,
            arena: f.arena + count * 2,
            held: self.held + 1,
            ..self
        }
    }

    // The run ends by a limit, when the term of a frame was to end.
    fn limit(self, mode: Mode) -> State
        requires { self.top ≤ frames_end }
        ensures { result ≡ ended_by mode self }
    {
        State {
            mode,
            ..self.leave()
        }
    }

    // One frame taken off.
    fn pop(self, work: &mut [u8]) -> State
        requires { Waiting work.old self }
        ensures popped { Popped work.old self work.new result }
        ensures smaller { Smaller work.old self work.new result }
    {
        match self.mode {
            Mode::Proved => self.pop_proved(work),
            Mode::Failed => self.pop_failed(work),
            _ => self.leave(),
        }
    }

    // To the next term to begin, or to the end of the run.
    pub fn unwind(self, work: &mut [u8]) -> State
        requires { Unwinding work.old self }
        ensures unwound { Unwound work.old self work.new result }
        ensures fewer { Fewer work.old self work.new result }
    {
        let mut s = self;
        while s.top < FRAMES_END {
            s = s.pop(work);
            if s.mode == Mode::Running {
                return s;
            }
        }
        s
    }
}
