// The count of term fields as a C function, so that bench can measure it by itself: in the library it is a part of hitac_check and has no name of its own. The library does not have this function.
// Its contract is for terms of every kind; check, whose terms are hiproofs, could be proved with a count for these alone.
#![tactic(auto)]

ghost use Rattle.std.specs.Prelude.{◌≡◌, ◌+◌};
ghost use Rattle.format.specs.Terms.{Term, size, fields};
ghost use Rattle.format.specs.Standing.{Stands};

use format::count::count_fields;

// The number of term fields of the term that stands from a place to an end. Nothing is tested: whoever calls it has read the term.
#[unsafe(no_mangle)]
pub extern "C" fn bench_count_fields(bytes: &[u8], at: usize, end: usize) -> usize
    requires { (t : Term) × Stands bytes.now at t × (end ≡ at + size t) }
    ensures { (t : Term) → Stands bytes.now at t → end ≡ at + size t → result ≡ fields t }
{
    count_fields(bytes, at, end)
}
