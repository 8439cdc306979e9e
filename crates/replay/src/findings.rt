// How the files of a case read, compared with what its answer tells of them.
use crate::records::{CHECK_FLAT, READ_TEXT, RUN, SEARCH, WRITE_PROOF, WRITE_TEXT};
use crate::tally::{Verdict, compared};
use answers::{Answer, File};
use files::flats::read_flat;
use files::jobs::read_job;
use files::proofs::{empty_proof, or_empty_proof, read_proof_fields};
use files::terms::read_term_file;
use format::refusals::Refusal;
use whole_table::layout::READING_SCRATCH;
use whole_table::read_table;

// More than the reading of any file takes.
const SPACE: usize = 65536;

// What refuses a table.
fn table_refusal(s: &[u8], space: &mut [u8; SPACE]) -> Option<Refusal> {
    read_table(s, space, 0, READING_SCRATCH).err()
}

// What refuses the other file, read as the entry reads it.
fn other_refusal(entry: u8, s: &[u8], space: &mut [u8; SPACE]) -> Option<Refusal> {
    match entry {
        RUN | SEARCH => read_job(s, space, 0).err(),
        CHECK_FLAT | WRITE_PROOF => read_flat(s, space, 0).err(),
        WRITE_TEXT => read_term_file(s, space, 0).err(),
        _ => {
            let empty = empty_proof();
            read_proof_fields(or_empty_proof(s, &empty), space, 0).err()
        }
    }
}

// Whether the answer is a reader's refusal of this file; last is the reader's last number.
fn refuses(told: Answer, file: File, last: u32) -> bool {
    told.file == u32::from(file.number()) && told.number != 0 && told.number <= last
}

// Whether a file reads as told: it is refused as the answer says, or not at all.
fn reads_as_told(found: Option<Refusal>, refused: bool, told: Answer) -> bool {
    match found {
        Some(e) => {
            refused
                && u32::from(e.cause.number()) == told.number
                && e.place as u64 == u64::from(told.place)
        }
        None => !refused,
    }
}

// The reading of a case. After 29, 25 and 42 the answer tells nothing of the files; a refused table tells nothing of the other file; a text is no file of fields.
pub fn replay_reading(entry: u8, table: &[u8], other: &[u8], told: Answer) -> Verdict {
    if entry == READ_TEXT || matches!(told.number, 25 | 29 | 42) {
        return Verdict::Untold;
    }
    let refused = refuses(told, File::Table, 9);
    let mut space = [0u8; SPACE];
    if !reads_as_told(table_refusal(table, &mut space), refused, told) {
        return Verdict::Different;
    }
    if refused {
        return Verdict::Same;
    }
    let found = other_refusal(entry, other, &mut space);
    compared(reads_as_told(found, refuses(told, File::Other, 5), told))
}
