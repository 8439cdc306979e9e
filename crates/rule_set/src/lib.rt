// The set of the rule numbers met so far, in a part of the lent work space: one bit for each rule that document 01 lets in, and behind them the count of the bits set. The count is kept as bits are set, so that to ask for it costs one read.
// Document 02, P6: "the count of different rules used".
// A set is named by the work space and the place where it begins, and not by a struct that holds a slice: other parts of that space are written between two uses, and contracts speak of the whole space, so that such a struct would be no plainer.
#![tactic(auto)]

pub mod layout;

ghost use Rattle.std.specs.Prelude.{◌≡◌, List, [], ◌∷◌, ℕ, ◌+◌, ◌≤◌, ◌<◌, length};
ghost use Rattle.words.specs.Kept.{Kept};
ghost use Rattle.rule_set.specs.Different.{different};
ghost use Rattle.rule_set.specs.Layout.{set_bits, set_room};
ghost use Rattle.rule_set.specs.Sets.{RuleSet};

use crate::layout::BITS_ROOM;
use words::{clear_part, load16, store16};

// Makes the set empty.
pub fn make_empty(w: &mut [u8], base: usize)
    requires { base + set_room ≤ length w.old }
    ensures empty { RuleSet w.new base [] }
    ensures kept { Kept w.old w.new base (base + set_room) }
{
    store16(w, base + BITS_ROOM, 0);
    clear_part(w, base, BITS_ROOM);
}

// Puts a number into the set. Where it is in it already nothing is written. Every use of a rule comes through here: the bit is shifted down from the highest, since the compiler would take 1 shifted up for a part of the test, and make it at every use.
pub fn put(w: &mut [u8], base: usize, number: usize)
    requires { ((ns : List ℕ) × RuleSet w.old base ns) × (number < set_bits) }
    ensures more { (ns : List ℕ) → RuleSet w.old base ns → RuleSet w.new base (number ∷ ns) }
    ensures kept { Kept w.old w.new base (base + set_room) }
{
    let at = base + number / 8;
    let bit = number % 8;
    let byte = w[at];
    if (byte >> bit) % 2 == 1 {
        return;
    }
    let count = load16(w, base + BITS_ROOM);
    store16(w, base + BITS_ROOM, count + 1);
    w[at] = byte + (128u8 >> (7 - bit));
}

// How many different numbers are in the set.
pub fn size_of(w: &[u8], base: usize) -> usize
    requires { (ns : List ℕ) × RuleSet w.now base ns }
    ensures size { (ns : List ℕ) → RuleSet w.now base ns → result ≡ different ns }
    ensures few { result ≤ set_bits }
{
    load16(w, base + BITS_ROOM) as usize
}
