// Document 01: "The reader moves over the file one field at a time".
// The reader holds the lent file, its offset and the end of what encloses it. Its methods are thin: the work is done by functions on the slice and the numbers.
ghost use Rattle.std.specs.Prelude.{◌≡◌, ◌≤◌, length};
ghost use Rattle.format.specs.Headers.{header_at};
ghost use Rattle.format.specs.Shapes.{header_shape};

use format::headers::{Header, read_header};
use format::refusals::Refusal;

#[derive(Clone, Copy)]
pub struct Reader<'a> {
    pub file: &'a [u8],
    pub at: usize,
    pub end: usize,
}

impl<'a> Reader<'a> {
    // A reader at a place of a file, within what ends at `end`: an enclosing field or the file.
    pub fn new(file: &'a [u8], at: usize, end: usize) -> Reader<'a>
        ensures { (result.file ≡ file.entry) × (result.at ≡ at) × (result.end ≡ end) }
    {
        Reader { file, at, end }
    }

    // The header of the field at which the reader stands.
    pub fn header(self, low: u8, high: u8, full: bool) -> Result<Header, Refusal>
        requires { (self.at ≤ self.end) × (self.end ≤ length self.file.now) }
        ensures { result ≡ header_shape (header_at self.entry.file.now self.entry.at self.entry.end low high full) }
    {
        read_header(self.file, self.at, self.end, low, high, full)
    }

    // The reader at another place of its file, within what ends at `end`.
    pub fn to(self, at: usize, end: usize) -> Reader<'a>
        ensures { (result.file ≡ self.entry.file) × (result.at ≡ at) × (result.end ≡ end) }
    {
        Reader { at, end, ..self }
    }
}
