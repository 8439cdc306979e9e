// The entry of the flat-derivation checker.
ghost use Rattle.std.specs.Prelude.{◌≡◌, ◌≤◌, length, IfOk, IfErr};
ghost use Rattle.words.specs.Kept.{Kept};
ghost use Rattle.format.specs.Limits.{most_bytes, most_uses, most_opens};
ghost use Rattle.rule_set.specs.Layout.{set_bits};
ghost use Rattle.tables.specs.Tables.{Table};
ghost use Rattle.tables.specs.Standing.{TableStands};
ghost use Rattle.index.specs.Build.{RulesIndexed};
ghost use Rattle.files.specs.Derivations.{Derivation};
ghost use Rattle.entries.specs.CheckFlat.{check_flat_work, check_flat_outcome, check_flat};
ghost use Rattle.entries.specs.LentSpace.{counted_answer};
ghost use Rattle.derivation.specs.Layout.{index_place, cursors_place, set_end};
ghost use Rattle.derivation.specs.CheckedEntries.{DerivationAt, ReadsFiles, checked_entries, answer_in};

use crate::layout::{INDEX, SET};
use crate::walk::walk;
use answers::{Answer, File};
use files::flats::{FlatParts, read_flat};
use format::refusals::{Cause, Refusal};
use rule_set::{make_empty, size_of};
use whole_table::read_table;
use words::clear;

// The length of the work space.
const WORK: usize = 65536;

// What is counted of a flat file that is right: uses, open leaves, and the different rules of the uses.
#[derive(Clone, Copy)]
pub struct Counted {
    pub uses: usize,
    pub opens: usize,
    pub rules: usize,
}

// What reading a table and a flat file finds: the place where the rules end, and the parts of the flat file.
#[derive(Clone, Copy)]
pub struct FilesRead {
    pub rules: usize,
    pub parts: FlatParts,
}

// Both files of an entry, the table first; its rules are indexed. A refusal is the entry's answer.
pub fn read_files(table: &[u8], flat: &[u8], work: &mut [u8]) -> Result<FilesRead, Answer>
    requires { check_flat_work ≤ length work.old }
    ensures { ReadsFiles table.now flat.now work.new result }
{
    let read = read_table(table, work, 0, INDEX);
    let fields = read.map_err(|r| Answer::refused(r.cause, File::Table, r.place, 0))?;
    let read = read_flat(flat, work, 0);
    let parts = read.map_err(|r| Answer::refused(r.cause, File::Other, r.place, 0))?;
    Ok(FilesRead {
        rules: fields.first,
        parts,
    })
}

// The entries of a flat file that was read, by a walk. The rules end at `rules`, and are indexed.
pub fn check_entries(
    table: &[u8],
    rules: usize,
    flat: &[u8],
    parts: FlatParts,
    work: &mut [u8],
) -> Result<Counted, Refusal>
    requires table_stands { (T : Table) × TableStands table.now rules T }
    requires derivation_at { (d : Derivation) × DerivationAt flat.now parts d }
    requires table_len_bound { (length table.now ≤ most_bytes) × (set_end ≤ length work.old) }
    requires rules_indexed { RulesIndexed table.now rules work.old index_place }
    ensures value { (T : Table) (d : Derivation) → TableStands table.now rules T → DerivationAt flat.now parts d → result ≡ checked_entries T d (length flat.now) }
    ensures few { IfOk result (λ c. (c.uses ≤ most_uses) × (c.opens ≤ most_opens) × (c.rules ≤ set_bits)) }
    ensures inside { IfErr result (λ f. f.place ≤ length flat.now) }
    ensures kept { Kept work.old work.new cursors_place set_end }
{
    make_empty(work, SET);
    let stop = walk(table, rules, flat, parts.roots, work);
    if stop.place < flat.len() {
        return Err(Refusal {
            cause: Cause::EntryWrong,
            place: stop.place,
        });
    }
    if stop.pending.has_goals() {
        return Err(Refusal {
            cause: Cause::GoalsPending,
            place: flat.len(),
        });
    }
    Ok(Counted {
        uses: parts.uses,
        opens: parts.opens,
        rules: size_of(work, SET),
    })
}

// The check itself: it may leave anything in the work space. Gives the answer of a file that is right, or that of a refusal.
fn check_within(table: &[u8], flat: &[u8], work: &mut [u8]) -> Result<Answer, Answer>
    requires { check_flat_work ≤ length work.old }
    ensures { answer_in result ≡ counted_answer (check_flat_outcome table.now flat.now) }
{
    let read = read_files(table, flat, work)?;
    let checked = check_entries(table, read.rules, flat, read.parts, work);
    let found = checked.map_err(|r| Answer::refused(r.cause, File::Other, r.place, 0))?;
    Ok(Answer::counted(0, found.uses, found.opens, found.rules))
}

// 29 with everything untouched, or the answer with the work space cleared.
pub fn check_flat(table: &[u8], flat: &[u8], work: &mut [u8]) -> Answer
    ensures answer { result ≡ (check_flat table.now flat.now work.old).answer }
    ensures work { work.new ≡ (check_flat table.now flat.now work.old).work }
{
    if work.len() < WORK {
        return Answer::refused(Cause::WorkTooShort, File::Neither, 0, 0);
    }
    let (Ok(answer) | Err(answer)) = check_within(table, flat, work);
    clear(work);
    answer
}
