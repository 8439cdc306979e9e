// A header and an atomic term, stored at the start of an output part; the end of a field that was stored.
ghost use Rattle.std.specs.Prelude.{◌≡◌, ◌++◌, ◌+◌, ◌≤◌, ◌<◌, length, drop};
ghost use Rattle.words.specs.Word.{word};
ghost use Rattle.format.specs.Terms.{atomic};
ghost use Rattle.format.specs.Encoding.{term_bytes};
ghost use Rattle.writer.specs.Fields.{header};

use format::tags::ATOMIC;
use format::values::RuleName;
use words::{load16, store16};

// A field's tag and length, in front of the contents. It stores at the start of a part that was lent, and its promise is said of that part, as the writers of trees need it.
pub fn write_header(out: &mut [u8], tag: u8, len: usize)
    requires { (3 ≤ length out.old) × (len < 65536) }
    ensures { out.new ≡ header tag len ++ drop 3 out.old }
{
    out[0] = tag;
    store16(out, 1, len as u16);
}

// An atomic term.
pub fn write_atomic(name: RuleName, out: &mut [u8])
    requires { 5 ≤ length out.old }
    ensures { out.new ≡ term_bytes (atomic name) ++ drop 5 out.old }
{
    write_header(out, ATOMIC, 2);
    store16(out, 3, name.0);
}

// The place behind the field that stands at a place.
pub fn field_end(s: &[u8], at: usize) -> usize
    requires { at + 3 ≤ length s.now }
    ensures { result ≡ at + 3 + word s.now (at + 1) }
{
    let len = load16(s, at + 1) as usize;
    at + 3 + len
}
