// The entry read_text.
ghost use Rattle.std.specs.Prelude.{◌≡◌, List, ◌≤◌, length};
ghost use Rattle.format.specs.Encoding.{term_bytes};
ghost use Rattle.notation.specs.Marks.{Mark};
ghost use Rattle.entries.specs.Outcomes.{done};
ghost use Rattle.entries.specs.Left.{left_in};
ghost use Rattle.entries.specs.Texts.{read_text_work, read_text_outcome, read_text};
ghost use Rattle.text_reader.specs.Held.{Prepared};

use crate::scan::{Scanned, scan_text};
use crate::term::{FRAMES_END, write_term};
use answers::{Answer, File};
use format::refusals::Cause;
use parts::MOST_BYTES;
use words::clear;

// The length of the work space: three bytes for each mark, of which a text has no more than bytes, and above them, from the end down, three for each sign or closing bracket that waits; as marks are read from the last to the first, the two never meet. Both stand in lent bytes, since the engine has no heap.
const WORK: usize = FRAMES_END;

// The term of marks that were scanned to the end of their text, if there is room for it.
fn write_found(read: Scanned, work: &mut [u8], out: &mut [u8]) -> Answer
    requires { (ms : List Mark) × Prepared ms work.old read.count read.size }
    ensures answer { (ms : List Mark) (p : Prepared ms work.old read.count read.size) → result ≡ (left_in out.old (done (term_bytes p.term))).answer }
    ensures out { (ms : List Mark) (p : Prepared ms work.old read.count read.size) → out.new ≡ (left_in out.old (done (term_bytes p.term))).out }
{
    if out.len() < read.size {
        return Answer::refused(Cause::OutputTooShort, File::Neither, 0, 0);
    }
    write_term(read.count, work, &mut out[..read.size]);
    Answer::wrote(read.size, 0)
}

// The reading itself: it may leave anything in the work space.
fn read_within(text: &[u8], work: &mut [u8], out: &mut [u8]) -> Answer
    requires { read_text_work ≤ length work.old }
    ensures answer { result ≡ (left_in out.old (read_text_outcome text.now)).answer }
    ensures out { out.new ≡ (left_in out.old (read_text_outcome text.now)).out }
{
    if MOST_BYTES < text.len() {
        return Answer::refused(Cause::InputTooLong, File::Other, 0, 0);
    }
    match scan_text(text, work) {
        Err(r) => Answer::refused(r.cause, File::Other, r.place, 0),
        Ok(read) => write_found(read, work, out),
    }
}

// 29 with everything untouched, or the answer and the output with the work space cleared.
pub fn read_text(text: &[u8], work: &mut [u8], out: &mut [u8]) -> Answer
    ensures answer { result ≡ (read_text text.now work.old out.old).answer }
    ensures work { work.new ≡ (read_text text.now work.old out.old).work }
    ensures out { out.new ≡ (read_text text.now work.old out.old).out }
{
    if work.len() < WORK {
        return Answer::refused(Cause::WorkTooShort, File::Neither, 0, 0);
    }
    let answer = read_within(text, work, out);
    clear(work);
    answer
}
