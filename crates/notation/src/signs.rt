// The signs by the tags of their terms.
ghost use Rattle.std.specs.Prelude.{◌≡◌, ◌≤◌};
ghost use Rattle.notation.specs.Signs.{is_pair, rank_tag};

use format::tags::{ALTERNATION, SEQUENCE, TENSOR};

// The tag of a sequence, a tensor or an alternation.
#[tactic(auto, unfolding(crate::specs::Signs::is_pair))]
pub fn is_pair(tag: u8) -> bool
    ensures { result ≡ is_pair tag }
{
    matches!(tag, SEQUENCE | TENSOR | ALTERNATION)
}

// How tight its sign binds.
#[tactic(auto, unfolding(crate::specs::Signs::rank_tag))]
pub fn rank_of(tag: u8) -> usize
    ensures value { result ≡ rank_tag tag }
    ensures few { result ≤ 2 }
{
    match tag {
        TENSOR => 2,
        ALTERNATION => 1,
        _ => 0,
    }
}
