// Document 02, P3: the term fields of a term, counted in one loop over its bytes.
// Headers stand in a term one behind the other: behind a header and the values in front of its inner terms stands the header of the first of them; behind a field that has none, that of the next field, or the term ends.
ghost use Rattle.std.specs.Prelude.{◌≡◌, ℕ, ◌+◌};
ghost use Rattle.format.specs.Terms.{Term, size, fields};
ghost use Rattle.format.specs.Standing.{Stands};

use crate::tags::TERM_STEPS;

// The number of term fields of the term that stands from a place to an end: its own, and those of all terms in it.
pub fn count_fields(bytes: &[u8], at: usize, end: usize) -> usize
    requires { (t : Term) × Stands bytes.now at t × (end ≡ at + size t) }
    ensures { (t : Term) → Stands bytes.now at t → end ≡ at + size t → result ≡ fields t }
{
    let mut place = at;
    let mut count: usize = 0;
    while place < end {
        count += 1;
        let tag = bytes[place] as usize;
        place += TERM_STEPS[tag - 16] as usize;
    }
    count
}
