// The table of what was seen is made ready for the searches for 7 and 9.
ghost use Rattle.std.specs.Prelude.{List, ℕ, ◌+◌, ◌≤◌, length};
ghost use Rattle.tables.specs.Search.{Room, Headers};
ghost use Rattle.seen.specs.Layout.{seen_room};
ghost use Rattle.seen.specs.Seen.{Forgets, Readies};

use crate::layout::{FEW_BYTES, SEEN_ROOM};
use tables::repeats::Repeat;
use words::{clear_part, load16};

// Sets the byte of a field's value to 0, if the search is about the field.
fn forget(s: &[u8], w: &mut [u8], base: usize, at: usize, kind: Repeat)
    requires { Room s.now at × (base + seen_room ≤ length w.old) }
    ensures { Forgets kind s.now w.old w.new base at }
{
    if s[at] != kind.tag() {
        return;
    }
    let value = load16(s, at + 3) as usize;
    w[base + value % SEEN_ROOM] = 0;
}

// Sets the bytes of all fields from a place to another to 0. Where these are few, clearing the whole table would cost more than the search.
pub fn make_ready(s: &[u8], w: &mut [u8], base: usize, from: usize, to: usize, kind: Repeat)
    requires { ((ps : List ℕ) × Headers kind s.now from ps to) × (base + seen_room ≤ length w.old) }
    ensures { Readies kind s.now w.old w.new base from to }
{
    if FEW_BYTES < to - from {
        clear_part(w, base, SEEN_ROOM);
        return;
    }
    let mut at = from;
    // A turn goes on by the length of its field: no count, so no `for`.
    while at < to {
        forget(s, w, base, at, kind);
        at += kind.step(s, at);
    }
}
