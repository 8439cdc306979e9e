// What is decided of a proof that was read: the walk over its goals, and whether it gives the stated remaining ones.
ghost use Rattle.std.specs.Prelude.{◌≡◌, ℕ, ◌+◌, ◌*◌, ◌<◌, ◌≤◌, ◌≢◌, ◌↔◌, IsTrue, true, false, length};
ghost use Rattle.words.specs.Word.{word};
ghost use Rattle.format.specs.Goals.{goals_at};
ghost use Rattle.format.specs.Results.{gives};
ghost use Rattle.tables.specs.Tables.{Table};
ghost use Rattle.tables.specs.Standing.{TableStands};
ghost use Rattle.files.specs.Proofs.{Proof, read_proof_fields};
ghost use Rattle.files.specs.Shapes.{parts_of};
ghost use Rattle.entries.specs.Check.{same_goals};
ghost use Rattle.checker.specs.Layout.{set_end};
ghost use Rattle.checker.specs.Acts.{Behind};
ghost use Rattle.checker.specs.Walks.{LaidOut};
ghost use Rattle.checker.specs.Checks.{checked_answer};

use crate::layout::SET;
use crate::walk::walk;
use answers::{Answer, File};
use files::proofs::ProofParts;
use format::count::count_fields;
use format::refusals::Cause;
use input_arities::layout::STACK_END;
use input_arities::note_arities;
use rule_set::{make_empty, size_of};
use words::{copy_in, load16};

// Whether the goal at a place of the space is the one at a place of the proof.
fn same_goal(space: &[u8], at: usize, proof: &[u8], place: usize) -> bool
    requires { (at + 2 ≤ length space.now) × (place + 2 ≤ length proof.now) }
    ensures { IsTrue result ↔ (word space.now at ≡ word proof.now place) }
{
    load16(space, at) == load16(proof, place)
}

// Whether each of so many goals from the start of the space on is the one of the same number from a place of the proof on.
fn each_same(space: &[u8], count: usize, proof: &[u8], from: usize) -> bool
    requires { (count * 2 ≤ length space.now) × (from + count * 2 ≤ length proof.now) }
    ensures same { result ≡ true → (k : ℕ) → k < count → word space.now (k * 2) ≡ word proof.now (from + k * 2) }
    ensures other { result ≡ false → (k : ℕ) × (k < count) × (word space.now (k * 2) ≢ word proof.now (from + k * 2)) }
{
    (0..count).all(|i| same_goal(space, i * 2, proof, from + i * 2))
}

// Whether the goals at the start of the space are those from a place of the proof on.
fn same_goals(space: &[u8], given: usize, proof: &[u8], from: usize, stated: usize) -> bool
    requires { (given * 2 ≤ length space.now) × (from + stated * 2 ≤ length proof.now) }
    ensures { result ≡ same_goals (goals_at space.now 0 given) (goals_at proof.now from stated) }
{
    given == stated && each_same(space, given, proof, from)
}

// The work space before the walk: the set of rules is empty, the arities are noted, and the goals lie at the end of the stacks.
fn lay_out(proof: &[u8], work: &mut [u8], parts: ProofParts)
    requires { ((p : Proof) × (read_proof_fields proof.now ≡ gives p) × (parts_of p ≡ parts)) × (set_end ≤ length work.old) }
    ensures { (p : Proof) → read_proof_fields proof.now ≡ gives p → parts_of p ≡ parts → LaidOut proof.now p parts work.old work.new }
{
    make_empty(work, SET);
    note_arities(proof, parts.term, work);
    let size = parts.goals * 2;
    copy_in(work, STACK_END - size, proof, 3, size);
}

// The walk of a proof that was read: its refusal, or 21, or the proof's counts.
pub fn decide(
    table: &[u8],
    first: usize,
    proof: &[u8],
    work: &mut [u8],
    parts: ProofParts,
) -> Answer
    requires { ((T : Table) × TableStands table.now first T) × ((p : Proof) × (read_proof_fields proof.now ≡ gives p) × (parts_of p ≡ parts)) × (set_end ≤ length work.old) × Behind table.now first work.old }
    ensures { (T : Table) (p : Proof) → TableStands table.now first T → read_proof_fields proof.now ≡ gives p → result ≡ checked_answer T p }
{
    lay_out(proof, work, parts);
    match walk(table, first, proof, parts.term, work, parts.goals) {
        Err(refused) => Answer::refused(refused.cause, File::Other, refused.place, 0),
        Ok(ended) => {
            let rest = parts.rest;
            if same_goals(work, ended.given, proof, rest + 3, parts.remaining) {
                let fields = count_fields(proof, parts.term, rest);
                let rules = size_of(work, SET);
                return Answer::counted(fields, ended.uses, parts.remaining, rules);
            }
            Answer::refused(Cause::RemainingDiffer, File::Other, rest, 0)
        }
    }
}
