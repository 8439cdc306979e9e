// The calls of the entries, compared with the answers and the spaces that their cases tell. Each entry has one arm in call_agrees.
ghost use Rattle.std.specs.Prelude.{◌≡◌, true, length, replicate};
ghost use Rattle.replay.specs.Calls.{answer_of};

use crate::lent::{BLANK, FILLED, is_digest, is_left};
use crate::records::{CHECK, CHECK_FLAT, Case, FLATTEN, READ_TEXT, RUN, SEARCH, WRITE_TEXT};
use crate::tally::{Verdict, compared};
use answers::same_answer;
use checker::check::check;
use derivation::check::check_flat;
use flattener::flatten::flatten;
use runner::entry::run;
use searcher::entry::search;
use text_reader::entry::read_text;
use text_writer::entry::write_text;
use writer::entry::write_proof;

// Longer than any output space that a vector file of the fixed set lends.
const ROOM: usize = 32768;

// The call of a case in spaces of the lengths that it lends, of which every byte is filled: whether its answer and both spaces are as the case tells. Where they are, the answer that is told is the one by definition. A case of none of the entries that are named is one of write_proof: no other is replayed.
fn call_agrees(case: Case, table: &[u8], other: &[u8], work: &mut [u8], out: &mut [u8]) -> bool
    ensures { result ≡ true → answer_of case table.now other.now (replicate (length work.old) 165) (replicate (length out.old) 90) ≡ case.told }
{
    work.fill(FILLED);
    out.fill(BLANK);
    let answer = match case.entry {
        CHECK => check(table, other, work),
        CHECK_FLAT => check_flat(table, other, work),
        FLATTEN => flatten(table, other, work, out),
        RUN => run(table, other, case.budget, work, out),
        SEARCH => search(table, other, case.height, case.budget, work, out),
        READ_TEXT => read_text(other, work, out),
        WRITE_TEXT => write_text(other, work, out),
        _ => write_proof(table, other, work, out),
    };
    same_answer(answer, case.told)
        && is_left(work, case.told.number)
        && (matches!(case.entry, CHECK | CHECK_FLAT) || is_digest(out, case.digest))
}

// The call of a case in an output space of which it lends a part, unless it lends more than there is.
fn call_in(case: Case, table: &[u8], other: &[u8], work: &mut [u8], out: &mut [u8]) -> Verdict {
    if out.len() < case.room {
        return Verdict::Skipped;
    }
    compared(call_agrees(case, table, other, work, &mut out[..case.room]))
}

// The same in an array, which comes by reference so that its length is known from its type.
fn call_in_array(
    case: Case,
    table: &[u8],
    other: &[u8],
    work: &mut [u8],
    out: &mut [u8; ROOM],
) -> Verdict {
    call_in(case, table, other, work, out)
}

// The call of a case, unless it lends more than there is.
pub fn replay_call(case: Case, table: &[u8], other: &[u8], work: &mut [u8]) -> Verdict {
    if work.len() < case.lent {
        return Verdict::Skipped;
    }
    let mut out = [0u8; ROOM];
    call_in_array(case, table, other, &mut work[..case.lent], &mut out)
}
