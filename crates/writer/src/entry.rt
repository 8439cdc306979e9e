// The entry of the writer.
ghost use Rattle.std.specs.Prelude.{◌≡◌, ◌≤◌, length};
ghost use Rattle.format.specs.Limits.{most_bytes};
ghost use Rattle.tables.specs.Tables.{Table};
ghost use Rattle.tables.specs.Standing.{TableStands};
ghost use Rattle.files.specs.Derivations.{Derivation};
ghost use Rattle.index.specs.Build.{RulesIndexed};
ghost use Rattle.entries.specs.Left.{left_in};
ghost use Rattle.entries.specs.Outcomes.{done};
ghost use Rattle.entries.specs.CheckFlat.{write_proof_work, write_outcome, write_proof};
ghost use Rattle.derivation.specs.Layout.{index_place, set_end};
ghost use Rattle.derivation.specs.CheckedEntries.{DerivationAt, answer_in};
ghost use Rattle.writer.specs.Right.{Right, proof_of};
ghost use Rattle.writer.specs.Left.{written_entries};

use crate::file::write_file;
use crate::plan::{MOST_ENTRIES, PLAN, plan_entries};
use crate::sizes::proof_size;
use answers::{Answer, File};
use derivation::check::{check_entries, read_files};
use files::flats::FlatParts;
use format::refusals::Cause;
use words::clear;

// The length of the work space.
const WORK: usize = 65536;

// The proof file of a flat file that is right, if there is room for it.
fn write_right(
    table: &[u8],
    rules: usize,
    work: &[u8],
    flat: &[u8],
    roots: usize,
    size: usize,
    out: &mut [u8],
) -> Result<Answer, Answer>
    requires rules_indexed { RulesIndexed table.now rules work.now index_place }
    requires table_stands { (d : Right flat.now roots) × TableStands table.now rules d.table × (size ≡ length (proof_of d)) }
    ensures answer { (d : Right flat.now roots) → TableStands table.now rules d.table → size ≡ length (proof_of d) → answer_in result ≡ (left_in out.old (done (proof_of d))).answer }
    ensures out { (d : Right flat.now roots) → TableStands table.now rules d.table → size ≡ length (proof_of d) → out.new ≡ (left_in out.old (done (proof_of d))).out }
{
    if out.len() < size {
        return Err(Answer::refused(Cause::OutputTooShort, File::Neither, 0, 0));
    }
    let mut plan = [0u8; PLAN];
    plan_entries(table, rules, work, flat, 3 + roots * 2, &mut plan);
    let len = write_file(flat, roots, &plan, out);
    Ok(Answer::wrote(len, 0))
}

// The entries of a flat file that was read: 28, 27, then 26.
fn write_entries(
    table: &[u8],
    rules: usize,
    flat: &[u8],
    parts: FlatParts,
    work: &mut [u8],
    out: &mut [u8],
) -> Result<Answer, Answer>
    requires table_stands { (T : Table) × TableStands table.now rules T }
    requires derivation_at { (d : Derivation) × DerivationAt flat.now parts d }
    requires table_len_bound { (length table.now ≤ most_bytes) × (set_end ≤ length work.old) }
    requires rules_indexed { RulesIndexed table.now rules work.old index_place }
    ensures answer { (T : Table) (d : Derivation) → TableStands table.now rules T → DerivationAt flat.now parts d → answer_in result ≡ (written_entries T d (length flat.now) out.old).answer }
    ensures out { (T : Table) (d : Derivation) → TableStands table.now rules T → DerivationAt flat.now parts d → out.new ≡ (written_entries T d (length flat.now) out.old).out }
{
    if MOST_ENTRIES < parts.uses + parts.opens {
        return Err(Answer::refused(Cause::EntriesTooMany, File::Other, 0, 0));
    }
    let checked = check_entries(table, rules, flat, parts, work);
    let found = checked.map_err(|r| Answer::refused(r.cause, File::Other, r.place, 0))?;
    let size = proof_size(parts.roots, found.uses, found.opens);
    write_right(table, rules, work, flat, parts.roots, size, out)
}

// The writing itself: it may leave anything in the work space. Gives the answer of a file that was written, or that of a refusal.
fn write_within(
    table: &[u8],
    flat: &[u8],
    work: &mut [u8],
    out: &mut [u8],
) -> Result<Answer, Answer>
    requires { write_proof_work ≤ length work.old }
    ensures answer { answer_in result ≡ (left_in out.old (write_outcome table.now flat.now)).answer }
    ensures out { out.new ≡ (left_in out.old (write_outcome table.now flat.now)).out }
{
    let read = read_files(table, flat, work)?;
    write_entries(table, read.rules, flat, read.parts, work, out)
}

// 29 with everything untouched, or the answer and the output with the work space cleared.
pub fn write_proof(table: &[u8], flat: &[u8], work: &mut [u8], out: &mut [u8]) -> Answer
    ensures answer { result ≡ (write_proof table.now flat.now work.old out.old).answer }
    ensures work { work.new ≡ (write_proof table.now flat.now work.old out.old).work }
    ensures out { out.new ≡ (write_proof table.now flat.now work.old out.old).out }
{
    if work.len() < WORK {
        return Answer::refused(Cause::WorkTooShort, File::Neither, 0, 0);
    }
    let (Ok(answer) | Err(answer)) = write_within(table, flat, work, out);
    clear(work);
    answer
}
