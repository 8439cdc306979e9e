// The entry write_text.
ghost use Rattle.std.specs.Prelude.{◌≡◌, ◌≤◌, length};
ghost use Rattle.format.specs.Terms.{Term};
ghost use Rattle.files.specs.Standing.{TermFileStands};
ghost use Rattle.notation.specs.Written.{written};
ghost use Rattle.entries.specs.Outcomes.{done};
ghost use Rattle.entries.specs.Texts.{write_text_outcome, write_text};
ghost use Rattle.entries.specs.Left.{left_in};
ghost use Rattle.text_writer.specs.Writing.{writing_room};

use crate::writing::write_term;
use answers::{Answer, File};
use files::terms::read_term_file;
use format::refusals::Cause;
use words::{clear, copy_in};

// The length of the work space: the text, and the stack behind it.
const WORK: usize = 36864;

// The text of a term that was read. It is written into the work space first, so that the output space is untouched if it has too little room.
fn write_found(term: &[u8], work: &mut [u8], out: &mut [u8]) -> Answer
    requires { (writing_room ≤ length work.old) × ((t : Term) × TermFileStands term.now t) }
    ensures answer { (t : Term) → TermFileStands term.now t → result ≡ (left_in out.old (done (written t))).answer }
    ensures out { (t : Term) → TermFileStands term.now t → out.new ≡ (left_in out.old (done (written t))).out }
{
    let len = write_term(term, work);
    if out.len() < len {
        return Answer::refused(Cause::OutputTooShort, File::Neither, 0, 0);
    }
    copy_in(out, 0, work, 0, len);
    Answer::wrote(len, 0)
}

// The writing itself. While the file is read its fields wait where the text will stand.
fn write_within(term: &[u8], work: &mut [u8], out: &mut [u8]) -> Answer
    requires { writing_room ≤ length work.old }
    ensures answer { result ≡ (left_in out.old (write_text_outcome term.now)).answer }
    ensures out { out.new ≡ (left_in out.old (write_text_outcome term.now)).out }
{
    match read_term_file(term, work, 0) {
        Err(r) => Answer::refused(r.cause, File::Other, r.place, 0),
        Ok(()) => write_found(term, work, out),
    }
}

// 29 with everything untouched, or the answer and the output with the work space cleared.
pub fn write_text(term: &[u8], work: &mut [u8], out: &mut [u8]) -> Answer
    ensures answer { result ≡ (write_text term.now work.old out.old).answer }
    ensures work { work.new ≡ (write_text term.now work.old out.old).work }
    ensures out { out.new ≡ (write_text term.now work.old out.old).out }
{
    if work.len() < WORK {
        return Answer::refused(Cause::WorkTooShort, File::Neither, 0, 0);
    }
    let answer = write_within(term, work, out);
    clear(work);
    answer
}
