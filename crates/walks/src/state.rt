// Where the walk stands: the term that is to begin, or how the walk ended.
ghost use Rattle.std.specs.Prelude.{◌≡◌, ◌≤◌};
ghost use Rattle.walks.specs.Loops.{start_of};

use input_arities::layout::{FRAMES_END, STACK_END};

// The term at a place takes `count` values from `top` on and gives from `low` on; frames lie below `frames`; the next tensor's arity is at `arity`; so many atomics began.
#[derive(Clone, Copy)]
pub struct Next {
    pub at: usize,
    pub count: usize,
    pub low: usize,
    pub top: usize,
    pub frames: usize,
    pub arity: usize,
    pub uses: usize,
}

// A term, or the whole walk, that ended: the number of values given, and of uses so far.
#[derive(Clone, Copy)]
pub struct Ended {
    pub given: usize,
    pub uses: usize,
}

// What a step that is not refused comes to.
#[derive(Clone, Copy)]
pub enum Turn {
    Begin(Next),
    Ended(Ended),
}

impl Next {
    // The walk begins with the term at a place, on so many values at the end of the stacks.
    pub fn start(at: usize, count: usize) -> Next
        requires { count ≤ 256 }
        ensures { result ≡ start_of at count }
    {
        Next {
            at,
            count,
            low: 0,
            top: STACK_END - count * 2,
            frames: STACK_END,
            arity: FRAMES_END,
            uses: 0,
        }
    }
}
