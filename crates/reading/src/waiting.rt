// Enclosing fields wait in lent bytes, four for each, while an inner term is read.
ghost use Rattle.std.specs.Prelude.{◌≡◌, List, ℕ, ◌+◌, ◌≤◌, ◌<◌, length};
ghost use Rattle.parts.specs.declared.state.Mode.TheVariants.{Gave};
ghost use Rattle.reading.specs.Waiting.{put_waiting, Going, Moved, Enters, Turned};

use format::headers::Header;
use format::refusals::{Cause, Refusal};
use format::tags::row_of;
use parts::state::{Mode, State};
use words::{load16, store16};

// A field that waits: how far behind the place of the field around it it stands, and how many inner terms follow the one that is read now.
fn push(work: &mut [u8], low: usize, gap: u16, left: u16)
    requires { low + 3 < length work.old }
    ensures { work.new ≡ put_waiting work.old low gap left }
{
    store16(work, low, gap);
    store16(work, low + 2, left);
}

// The field with that header: refused, read if it has no inner terms, or one more that waits for its first inner term.
fn enter(x: State, header: Result<Header, Refusal>, work: &mut [u8], base: usize) -> State
    requires { (s : List ℕ) × (high : ℕ) × Enters s work.old high base x header }
    ensures { (s : List ℕ) (high : ℕ) → Enters s work.old high base x header → Moved s work.old high base x work.new result }
{
    match header {
        Err(Refusal { cause, place }) => x.refused(cause, place),
        Ok(Header { tag, len }) => {
            let at = x.at;
            let close = at + 3 + len;
            let fields = x.fields + 1;
            let row = row_of(tag);
            if row.inner == 0 {
                return State {
                    mode: Mode::Gave,
                    at: close,
                    end: close,
                    fields,
                    ..x
                };
            }
            let low = base + x.depth * 4;
            push(work, low, (at - x.top) as u16, (row.inner - 1) as u16);
            State {
                at: at + 3 + row.least as usize,
                end: close,
                fields,
                depth: x.depth + 1,
                top: at,
                ..x
            }
        }
    }
}

// Behind a term that was read: the field that waits last goes on to its second inner term, or ends there, or has leftovers.
fn leave(x: State, s: &[u8], work: &mut [u8], base: usize) -> State
    requires { Going s.now work.old base x × (x.mode ≡ Gave) × (0 < x.depth) }
    ensures { (high : ℕ) → Moved s.now work.old high base x work.new result }
{
    let top = x.top;
    let below = x.depth - 1;
    let low = base + below * 4;
    let around = top - load16(work, low) as usize;
    let left = load16(work, low + 2);
    let end = top + 3 + load16(s, top + 1) as usize;
    if left == 0 {
        if x.at == end {
            return State {
                end,
                depth: below,
                top: around,
                ..x
            };
        }
        return x.refused(Cause::LengthWrong, top);
    }
    store16(work, low + 2, 0);
    State {
        mode: Mode::Reads,
        end,
        ..x
    }
}

// From the header of a term's field to the next place where a term is to be read, if there is one: behind a term that was read, all fields that end there are left.
pub fn turn_within(
    x: State,
    header: Result<Header, Refusal>,
    s: &[u8],
    work: &mut [u8],
    base: usize,
) -> State
    requires { (high : ℕ) × Enters s.now work.old high base x header }
    ensures { (high : ℕ) → Enters s.now work.old high base x header → Turned s.now work.old high base x work.new result }
{
    let mut r = enter(x, header, work, base);
    while r.mode == Mode::Gave && r.depth != 0 {
        r = leave(r, s, work, base);
    }
    r
}
