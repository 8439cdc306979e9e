// The proof file of a flat file that is right.
ghost use Rattle.std.specs.Prelude.{◌≡◌, ◌++◌, ◌≤◌, length, drop};
ghost use Rattle.writer.specs.Right.{Right, proof_of, PlannedRight};

use crate::fields::field_end;
use crate::lists::{write_goals, write_leaves};
use crate::plan::PLAN;
use crate::trees::write_forest;

// Roots, term and open leaves, one behind the other; gives the length.
pub fn write_file(flat: &[u8], roots: usize, plan: &[u8; PLAN], out: &mut [u8]) -> usize
    requires { (d : Right flat.now roots) × PlannedRight plan.now d × (length (proof_of d) ≤ length out.old) }
    ensures { (d : Right flat.now roots) → PlannedRight plan.now d → length (proof_of d) ≤ length out.old → (result ≡ length (proof_of d)) × (out.new ≡ proof_of d ++ drop (length (proof_of d)) out.old) }
{
    let term = 3 + roots * 2;
    write_goals(flat, 3, roots, out);
    write_forest(plan, 0, roots, &mut out[term..]);
    let rest = field_end(out, term);
    let last = write_leaves(flat, term, &mut out[rest..]);
    rest + last
}
