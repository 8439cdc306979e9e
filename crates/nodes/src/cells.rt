// Nodes in the work space: their cells behind the index, eight bytes each, and their numbers on the stacks.
ghost use Rattle.std.specs.Prelude.{◌≡◌, ◌+◌, ◌*◌, ◌≤◌, ◌<◌, length};
ghost use Rattle.format.specs.Goals.{goals_at};
ghost use Rattle.nodes.specs.Space.{cell_place, put_use, put_opens, put_range};

use format::values::RuleName;
use walks::layout::INDEX_END;
use words::{load16, store16};

// Where the cells begin.
pub const CELLS: usize = INDEX_END;

// Stores so many nodes in a row from a place on.
pub fn put_range(s: &mut [u8], at: usize, first: usize, count: usize)
    requires { (at + count * 2 ≤ length s.old) × (first + count ≤ 65535) }
    ensures { s.new ≡ put_range s.old at first count }
{
    for i in 0..count {
        store16(s, at + i * 2, (first + i) as u16);
    }
}

// The cells of so many open goals, those from a place of a file on.
pub fn put_opens(s: &mut [u8], node: usize, file: &[u8], place: usize, count: usize)
    requires { (cell_place (node + count) ≤ length s.old) × (place + count * 2 ≤ length file.now) }
    ensures { s.new ≡ put_opens s.old node (goals_at file.now place count) }
{
    for i in 0..count {
        let at = CELLS + (node + i) * 8;
        store16(s, at, load16(file, place + i * 2));
        store16(s, at + 6, 0);
    }
}

// The cell of a node becomes that of a use.
#[tactic(auto, unfolding(crate::specs::Space::put_use))]
pub fn put_use(s: &mut [u8], node: usize, name: RuleName, first: usize, count: usize)
    requires { (cell_place node + 8 ≤ length s.old) × (first ≤ 65535) × (count < 65535) }
    ensures { s.new ≡ put_use s.old node name.0 first count }
{
    let at = CELLS + node * 8;
    store16(s, at + 2, name.0);
    store16(s, at + 4, first as u16);
    store16(s, at + 6, (count + 1) as u16);
}
