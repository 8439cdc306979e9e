// The entry check: table, proof and work space in, one answer out.
ghost use Rattle.std.specs.Prelude.{◌≡◌, ◌≤◌, ◌<◌, length};
ghost use Rattle.entries.specs.LentSpace.{counted_answer};
ghost use Rattle.entries.specs.Check.{proof_counts, on_proof};
ghost use Rattle.entries.specs.Check as entry;
ghost use Rattle.checker.specs.Layout.{set_end};

use crate::decide::decide;
use answers::{Answer, File};
use files::proofs::{empty_proof, or_empty_proof, read_proof_fields};
use format::refusals::Cause;
use input_arities::layout::ARITIES_END;
use whole_table::read_table;
use words::clear;

// The size of the work space that is named for this entry.
const WORK: usize = 65536;

// Both files, of which the proof has a byte, in a work space that is long enough. While they are read, the start of it holds the fields that wait.
fn check_files(table: &[u8], proof: &[u8], work: &mut [u8]) -> Answer
    requires { (0 < length proof.now) × (set_end ≤ length work.old) }
    ensures { result ≡ counted_answer (on_proof proof_counts table.now proof.now) }
{
    let first = match read_table(table, work, 0, ARITIES_END) {
        Err(refused) => return Answer::refused(refused.cause, File::Table, refused.place, 0),
        Ok(read) => read.first,
    };
    match read_proof_fields(proof, work, 0) {
        Err(refused) => Answer::refused(refused.cause, File::Other, refused.place, 0),
        Ok(parts) => decide(table, first, proof, work, parts),
    }
}

// Whether the proof is accepted in the table: 0 with its counts, or the refusal.
pub fn check(table: &[u8], proof: &[u8], work: &mut [u8]) -> Answer
    ensures value { result ≡ (entry.check table.now proof.now work.old).answer }
    ensures work_after { work.new ≡ (entry.check table.now proof.now work.old).work }
{
    if work.len() < WORK {
        return Answer::refused(Cause::WorkTooShort, File::Neither, 0, 0);
    }
    let empty = empty_proof();
    let file = or_empty_proof(proof, &empty);
    let answer = check_files(table, file, work);
    clear(work);
    answer
}
