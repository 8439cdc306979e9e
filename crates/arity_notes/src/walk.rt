// A walk over the terms whose arities a term asks for: its own inner terms and the bodies of defined tactics. Terms that wait for the arity of an inner term
// stand on a stack in the work space, three bytes each: the kind, and a value.
ghost use Rattle.std.specs.Prelude.{◌≡◌, ◌+◌, ◌<◌, length};
ghost use Rattle.tactics.specs.Numbers.{put_header};
ghost use Rattle.arity_notes.specs.declared.walk.Next.TheVariants.{Asks, Tells};

use tactics::numbers::put_header;

// The kinds of a term that waits, numbers since they are stored in a byte: a tensor or an alternation whose left term is asked for its arity, with its place; one whose right term is asked, with the
// arity of the left one; a defined tactic whose body is asked, with its number; and the term with which the walk began.
pub const SUM_LEFT: u8 = 1;

pub const SUM_RIGHT: u8 = 2;

pub const COMMON_LEFT: u8 = 3;

pub const COMMON_RIGHT: u8 = 4;

pub const BODY: u8 = 5;

pub const ROOT: u8 = 6;

// What is next: the term at a place is asked for its arity; or the last one asked has told its arity, with one added, and 0 for none.
#[derive(Clone, Copy)]
pub enum Next {
    Asks(usize),
    Tells(u16),
}

// Where the walk stands: what is next, and where the stack ends.
#[derive(Clone, Copy)]
pub struct Walk {
    pub next: Next,
    pub top: usize,
}

impl Walk {
    // The term at a place is asked next.
    pub fn go(self, at: usize) -> Walk
        ensures { result ≡ record { next = Asks at; top = self.top } }
    {
        Walk {
            next: Next::Asks(at),
            ..self
        }
    }

    // An arity is told, and the stack ends where it says.
    pub fn tell(self, arity: u16, top: usize) -> Walk
        ensures { result ≡ record { next = Tells arity; top = top } }
    {
        Walk {
            next: Next::Tells(arity),
            top,
        }
    }

    // A term waits for the arity of the one at a place.
    pub fn wait(self, kind: u8, value: u16, at: usize, work: &mut [u8]) -> Walk
        requires { (self.top + 2 < length work.old) × (self.top < 1000000) }
        ensures written { work.new ≡ put_header work.old self.top kind value }
        ensures next { result ≡ record { next = Asks at; top = self.top + 3 } }
    {
        put_header(work, self.top, kind, value);
        Walk {
            next: Next::Asks(at),
            top: self.top + 3,
        }
    }
}
