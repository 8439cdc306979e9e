// How a term is written, by the tag of its field.
ghost use Rattle.std.specs.Prelude.{◌≡◌};
ghost use Rattle.text_writer.specs.Spelling.{byte_of, wraps_tag, letter_of};

use format::tags::{ALTERNATION, ASSERTION, ATOMIC, LABEL, TENSOR};
use notation::signs::{is_pair, rank_of};

// The byte of its sign.
#[tactic(auto, unfolding(crate::specs::Spelling::byte_of))]
pub fn byte_of(tag: u8) -> u8
    ensures { result ≡ byte_of tag }
{
    match tag {
        TENSOR => b'*',
        ALTERNATION => b'|',
        _ => b';',
    }
}

// Whether the term of a tag stands in brackets.
#[tactic(auto, unfolding(crate::specs::Spelling::wraps_tag))]
pub fn wraps(tag: u8, binds: usize, followed: bool) -> bool
    ensures { result ≡ wraps_tag tag binds followed }
{
    if tag == LABEL {
        return followed;
    }
    is_pair(tag) && rank_of(tag) < binds
}

// The letter of a leaf with a number.
#[tactic(auto, unfolding(crate::specs::Spelling::letter_of))]
pub fn letter_of(tag: u8) -> u8
    ensures { result ≡ letter_of tag }
{
    match tag {
        ATOMIC => b'a',
        ASSERTION => b'?',
        _ => b'T',
    }
}
