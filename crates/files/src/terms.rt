// Reading a file that is one term, like that of a job.
// Document 02, P8: "The term, given or written, is a file by itself, read like a job's."
ghost use Rattle.std.specs.Prelude.{◌≡◌, ◌+◌, ◌≤◌, length};
ghost use Rattle.words.specs.Kept.{Kept};
ghost use Rattle.reading.specs.Waiting.{reading_room};
ghost use Rattle.files.specs.TermFiles.{read_term_file};
ghost use Rattle.files.specs.Shapes.{term_file_shape};

use crate::jobs::JobParts;
use crate::whole::read_whole;
use format::refusals::Refusal;
use parts::state::Part;

// A term file; nothing may be left behind the term. While it is read its fields wait in work, from base on.
pub fn read_term_file(s: &[u8], work: &mut [u8], base: usize) -> Result<(), Refusal>
    requires { base + reading_room ≤ length work.old }
    ensures value { result ≡ term_file_shape (read_term_file s.now) }
    ensures kept { Kept work.old work.new base (base + reading_room) }
{
    // It is read as a job of which no goals are stated.
    read_whole::<JobParts>(s, Part::JobTerm, work, base)?;
    Ok(())
}
