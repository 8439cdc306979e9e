// The searches for 7 and 9 by a table of what was seen: four bits for each value of two bytes, the name of a rule or a label. They are 0 where no field of that value was seen, else the mark of the first. No clash was met before, so every field seen of that value has that mark.
#![tactic(auto)]

pub mod layout;
pub mod ready;

ghost use Rattle.std.specs.Prelude.{◌≡◌, List, ℕ, ◌+◌, ◌≤◌, ◌<◌, length};
ghost use Rattle.tables.specs.Search.{Room, Headers};
ghost use Rattle.tables.specs.Within.{Every};
ghost use Rattle.seen.specs.Layout.{seen_room};
ghost use Rattle.seen.specs.Seen.{seen_at, put_seen, mark_of, Marked, Markable, Meets, Repeats};

use crate::layout::SEEN_ROOM;
use crate::ready::make_ready;
use tables::repeats::Repeat;
use words::load16;

// What was seen of a value.
fn seen_at(w: &[u8], base: usize, value: usize) -> u8
    requires { base + seen_room ≤ length w.now }
    ensures { result ≡ seen_at w.now base value }
{
    let both = w[base + value % SEEN_ROOM];
    if value < SEEN_ROOM {
        both % 16
    } else {
        both / 16
    }
}

// Enters a mark for a value of which nothing was seen.
fn mark_seen(w: &mut [u8], base: usize, value: usize, mark: u8)
    requires { (base + seen_room ≤ length w.old) × (mark < 16) × (seen_at w.old base value ≡ 0) }
    ensures { w.new ≡ put_seen w.old base value mark }
{
    let at = base + value % SEEN_ROOM;
    let both = w[at];
    if value < SEEN_ROOM {
        w[at] = both + mark;
    } else {
        w[at] = both + mark * 16;
    }
}

// The mark of a field: for 9 it is 1; for 7 it is half the length of the rule, the count of its premises and 2.
fn mark_of(s: &[u8], at: usize, kind: Repeat) -> u8
    requires { Room s.now at × Marked kind s.now at }
    ensures { result ≡ mark_of kind s.now at }
{
    match kind {
        Repeat::Label => 1,
        _ => (load16(s, at + 1) / 2) as u8,
    }
}

// Whether one field more clashes with one seen. The first of its value is entered.
fn meets(s: &[u8], w: &mut [u8], base: usize, at: usize, kind: Repeat) -> bool
    requires { Room s.now at × Markable kind s.now at × (base + seen_room ≤ length w.old) }
    ensures { Meets kind s.now w.old w.new base at result }
{
    if s[at] != kind.tag() {
        return false;
    }
    let value = load16(s, at + 3) as usize;
    let mark = mark_of(s, at, kind);
    let earlier = seen_at(w, base, value);
    if earlier == 0 {
        mark_seen(w, base, value, mark);
        return false;
    }
    match kind {
        Repeat::Label => true,
        _ => earlier != mark,
    }
}

// The first field from a place to another that clashes with an earlier one of these, for 7 or 9.
pub fn first_repeat(
    s: &[u8],
    w: &mut [u8],
    base: usize,
    from: usize,
    to: usize,
    kind: Repeat,
) -> Option<usize>
    requires { ((ps : List ℕ) × Headers kind s.now from ps to × Every (Markable kind s.now) ps) × (base + seen_room ≤ length w.old) }
    ensures { Repeats kind s.now w.old w.new base from to result }
{
    make_ready(s, w, base, from, to, kind);
    let mut at = from;
    // A turn goes on by the length of its field: no count, so no `for`.
    while at < to {
        if meets(s, w, base, at, kind) {
            return Some(at);
        }
        at += kind.step(s, at);
    }
    None
}
