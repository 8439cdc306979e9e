// The entry flatten: table, proof, work and output space in; one answer, and the flat file, out.
ghost use Rattle.std.specs.Prelude.{◌≡◌, [], ◌≤◌, ◌<◌, length};
ghost use Rattle.format.specs.Results.{gives};
ghost use Rattle.tables.specs.Tables.{Table};
ghost use Rattle.files.specs.Proofs.{Proof, read_proof_fields};
ghost use Rattle.files.specs.Shapes.{parts_of};
ghost use Rattle.entries.specs.LentSpace.{write_out};
ghost use Rattle.entries.specs.Check.{on_proof, forest_file};
ghost use Rattle.entries.specs.Check as entry;
ghost use Rattle.nodes.specs.Space.{cells_end};
ghost use Rattle.flattener.specs.Forests.{TableReady, Accepted, written, flattened, answer_in};

use crate::print::{print_forest, write_roots};
use crate::remaining::same_goals;
use answers::{Answer, File};
use files::proofs::{ProofParts, empty_proof, or_empty_proof, read_proof_fields};
use format::refusals::Cause;
use input_arities::layout::{ARITIES_END, STACK_END};
use input_arities::note_arities;
use nodes::cells::{put_opens, put_range};
use nodes::walk::walk;
use whole_table::read_table;
use words::clear;

// The size of the work space that is named for this entry.
const WORK: usize = 200704;

// The flat file of an accepted proof, of so many uses and nodes. Its size is known from the counts, so 26 is decided before a byte is written.
fn write_flat(
    proof: &[u8],
    parts: ProofParts,
    uses: usize,
    nodes: usize,
    work: &mut [u8],
    out: &mut [u8],
) -> Result<Answer, Answer>
    requires { (T : Table) × (p : Proof) × Accepted T p proof.now work.old parts uses nodes }
    ensures answer { (T : Table) (p : Proof) → Accepted T p proof.now work.old parts uses nodes → answer_in result ≡ (written T p out.old).answer }
    ensures out { (T : Table) (p : Proof) → Accepted T p proof.now work.old parts uses nodes → out.new ≡ (written T p out.old).out }
{
    let goals = parts.goals;
    let place = 3 + goals * 2;
    let size = place + uses * 7 + parts.remaining * 5;
    if out.len() < size {
        return Err(Answer::refused(Cause::OutputTooShort, File::Neither, 0, 0));
    }
    write_roots(out, proof, 3, goals);
    print_forest(work, goals, nodes, out, place);
    Ok(Answer::wrote(size, 0))
}

// A proof that was read: the stated goals are the first nodes; the refusals of the walk over them, then 21, then 26, or the flat file.
fn flatten_parts(
    table: &[u8],
    first: usize,
    proof: &[u8],
    parts: ProofParts,
    work: &mut [u8],
    out: &mut [u8],
) -> Result<Answer, Answer>
    requires { ((T : Table) × TableReady T table.now first work.old) × ((p : Proof) × (read_proof_fields proof.now ≡ gives p) × (parts_of p ≡ parts)) × (cells_end ≤ length work.old) }
    ensures answer { (T : Table) (p : Proof) → TableReady T table.now first work.old → read_proof_fields proof.now ≡ gives p → answer_in result ≡ (flattened T p out.old).answer }
    ensures out { (T : Table) (p : Proof) → TableReady T table.now first work.old → read_proof_fields proof.now ≡ gives p → out.new ≡ (flattened T p out.old).out }
{
    let goals = parts.goals;
    note_arities(proof, parts.term, work);
    put_opens(work, 0, proof, 3, goals);
    put_range(work, STACK_END - goals * 2, 0, goals);
    let walked = walk(table, first, proof, parts.term, goals, work);
    let shown = walked.map_err(|r| Answer::refused(r.cause, File::Other, r.place, 0))?;
    let rest = parts.rest;
    if !same_goals(work, shown.given, proof, rest + 3, parts.remaining) {
        return Err(Answer::refused(Cause::RemainingDiffer, File::Other, rest, 0));
    }
    write_flat(proof, parts, shown.uses, shown.nodes, work, out)
}

// Both files, of which the proof has a byte, in a work space that is long enough. While they are read, the start of it holds the fields that wait.
fn flatten_files(
    table: &[u8],
    proof: &[u8],
    work: &mut [u8],
    out: &mut [u8],
) -> Result<Answer, Answer>
    requires { (0 < length proof.now) × (cells_end ≤ length work.old) }
    ensures answer { answer_in result ≡ (write_out [] out.old (on_proof forest_file table.now proof.now)).answer }
    ensures out { out.new ≡ (write_out [] out.old (on_proof forest_file table.now proof.now)).out }
{
    let read = read_table(table, work, 0, ARITIES_END);
    let fields = read.map_err(|r| Answer::refused(r.cause, File::Table, r.place, 0))?;
    let read = read_proof_fields(proof, work, 0);
    let parts = read.map_err(|r| Answer::refused(r.cause, File::Other, r.place, 0))?;
    flatten_parts(table, fields.first, proof, parts, work, out)
}

// The flat file of the proof's forest in the table, or the refusal.
pub fn flatten(table: &[u8], proof: &[u8], work: &mut [u8], out: &mut [u8]) -> Answer
    ensures answer { result ≡ (entry.flatten table.now proof.now work.old out.old).answer }
    ensures work { work.new ≡ (entry.flatten table.now proof.now work.old out.old).work }
    ensures out { out.new ≡ (entry.flatten table.now proof.now work.old out.old).out }
{
    if work.len() < WORK {
        return Answer::refused(Cause::WorkTooShort, File::Neither, 0, 0);
    }
    let empty = empty_proof();
    let file = or_empty_proof(proof, &empty);
    let (Ok(answer) | Err(answer)) = flatten_files(table, file, work, out);
    clear(work);
    answer
}
