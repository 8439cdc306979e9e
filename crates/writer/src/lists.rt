// The goal lists of a proof file: the stated goals, which are the roots, and those of the open leaves.
ghost use Rattle.std.specs.Prelude.{◌≡◌, ◌++◌, ◌+◌, ◌*◌, ◌≤◌, length, drop};
ghost use Rattle.format.specs.Limits.{most_goals, most_opens};
ghost use Rattle.format.specs.Goals.{goals_at};
ghost use Rattle.format.specs.Encoding.{goal_bytes, goal_list_bytes};
ghost use Rattle.writer.specs.Leaves.{Rest, leaves_of};

use crate::fields::write_header;
use format::tags::{GOALS_TAG, USE_TAG};
use words::{copy_in, load16, store16};

// The goals of the open leaves from a place of the flat file to its end.
fn put_leaves(flat: &[u8], at: usize, out: &mut [u8]) -> usize
    requires { (p : Rest flat.now at) × (length (leaves_of p) * 2 ≤ length out.old) }
    ensures { (p : Rest flat.now at) → (result ≡ length (leaves_of p) * 2) × (out.new ≡ goal_bytes (leaves_of p) ++ drop (length (leaves_of p) * 2) out.old) }
{
    let mut here = at;
    let mut len: usize = 0;
    while here < flat.len() {
        if flat[here] == USE_TAG {
            here += 7;
            continue;
        }
        let goal = load16(flat, here + 3);
        store16(out, len, goal);
        len += 2;
        here += 5;
    }
    len
}

// The list of the goals that stand in the flat file from a place on, copied as they are.
pub fn write_goals(flat: &[u8], from: usize, count: usize, out: &mut [u8])
    requires { (from + count * 2 ≤ length flat.now) × (3 + count * 2 ≤ length out.old) × (count ≤ most_goals) }
    ensures { out.new ≡ goal_list_bytes (goals_at flat.now from count) ++ drop (3 + count * 2) out.old }
{
    write_header(out, GOALS_TAG, count * 2);
    copy_in(out, 3, flat, from, count * 2);
}

// The list of the open leaves' goals, and its length.
pub fn write_leaves(flat: &[u8], at: usize, out: &mut [u8]) -> usize
    requires { (p : Rest flat.now at) × (3 + length (leaves_of p) * 2 ≤ length out.old) × (length (leaves_of p) ≤ most_opens) }
    ensures { (p : Rest flat.now at) → (result ≡ 3 + length (leaves_of p) * 2) × (out.new ≡ goal_list_bytes (leaves_of p) ++ drop (3 + length (leaves_of p) * 2) out.old) }
{
    let len = put_leaves(flat, at, &mut out[3..]);
    write_header(out, GOALS_TAG, len);
    3 + len
}
