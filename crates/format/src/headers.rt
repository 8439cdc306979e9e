// The header of a field.
ghost use Rattle.std.specs.Prelude.{◌≤◌, ◌≡◌, length};
ghost use Rattle.format.specs.Headers.{header_at};
ghost use Rattle.format.specs.Shapes.{header_shape};

use crate::refusals::{Cause, Refusal};
use crate::tags::row_of;
use words::load16;

// A field's header: the tag and the length of the contents.
#[derive(Clone, Copy)]
pub struct Header {
    pub tag: u8,
    pub len: usize,
}

// The header at a place before the end of what encloses it. Kinds from low to high may stand there, which are numbers, since the contract promises header_at of every number; and full says that no more fields of its kind may come.
pub fn read_header(
    s: &[u8],
    at: usize,
    end: usize,
    low: u8,
    high: u8,
    full: bool,
) -> Result<Header, Refusal>
    requires { (at ≤ end) × (end ≤ length s.now) }
    ensures { result ≡ header_shape (header_at s.now at end low high full) }
{
    if end < at + 3 {
        return Err(Refusal::new(Cause::FieldTorn, at));
    }
    let tag = s[at];
    let row = row_of(tag);
    let kind = row.kind.number();
    if kind < low || high < kind {
        return Err(Refusal::new(Cause::TagNotAllowed, at));
    }
    if full {
        return Err(Refusal::new(Cause::LimitPassed, at));
    }
    let len = load16(s, at + 1) as usize;
    if end < at + 3 + len {
        return Err(Refusal::new(Cause::FieldTorn, at));
    }
    if !row.fits(len) {
        return Err(Refusal::new(Cause::LengthWrong, at));
    }
    Ok(Header { tag, len })
}
