// The arities of tensors' left terms, noted once for each tensor of the table and of the job.
ghost use Rattle.std.specs.Prelude.{◌≡◌, ◌+◌, ◌≤◌, ◌<◌, length};
ghost use Rattle.words.specs.Word.{word};
ghost use Rattle.input_arities.specs.Threads.{slot};
ghost use Rattle.arity_notes.specs.Regions.{regions_end};
ghost use Rattle.arity_notes.specs.Notes.{notes_of};

use crate::regions::{JOB_NOTES, TABLE_NOTES};
use words::load16;

// Where the notes of a file begin.
fn notes_of(file: u16) -> usize
    ensures { result ≡ notes_of file }
{
    if file == 0 { TABLE_NOTES } else { JOB_NOTES }
}

// The noted arity of the left term of a tensor whose right term stands at a place: with one added, and 0 for none.
pub fn noted(work: &[u8], file: u16, right: usize) -> u16
    requires { (right + 3 < 65536) × (regions_end ≤ length work.now) }
    ensures { result ≡ word work.now (notes_of file + slot right) }
{
    let base = notes_of(file);
    load16(work, base + right / 3 * 2)
}
