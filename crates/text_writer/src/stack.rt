// The stack of what follows the term that is written now, in the work space behind the text: a byte for each bracket to close and for each pair whose right part is still to be written. It stands in lent bytes, since the engine has no heap.
ghost use Rattle.std.specs.Prelude.{◌≡◌, ◌+◌, ◌≤◌, ◌<◌, length};
ghost use Rattle.text_writer.specs.Stack.{stack_place, pair_byte, tag_in, bracket_on_top};

// The place of the stack. The text has 28,671 bytes at the most.
pub const STACK: usize = 28672;

// Added to the tag of a pair that a sign follows.
pub const FOLLOWED: u8 = 64;

// The byte of a pair: its tag, and whether a sign follows it.
#[tactic(auto, unfolding(crate::specs::Stack::pair_byte))]
pub fn pair_byte(tag: u8, followed: bool) -> u8
    requires { tag < 64 }
    ensures { result ≡ pair_byte tag followed }
{
    if followed { tag + FOLLOWED } else { tag }
}

// The tag of a pair's byte.
#[tactic(auto, unfolding(crate::specs::Stack::tag_in))]
pub fn tag_in(b: u8) -> u8
    ensures { result ≡ tag_in b }
{
    if FOLLOWED <= b { b - FOLLOWED } else { b }
}

// Whether a bracket is to be closed next.
#[tactic(auto, unfolding(crate::specs::Stack::bracket_on_top))]
pub fn bracket_on_top(top: usize, work: &[u8]) -> bool
    requires { stack_place + top ≤ length work.now }
    ensures { result ≡ bracket_on_top work.now top }
{
    0 < top && work[STACK + (top - 1)] == 0
}
