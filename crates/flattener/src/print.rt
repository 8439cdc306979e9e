// The flat file of the forest that the nodes show: the roots, then the entries, each node's before those of its premises.
ghost use Rattle.std.specs.Prelude.{◌≡◌, ◌+◌, ◌*◌, ◌≤◌, ◌<◌, length};
ghost use Rattle.std.proofs.lemmas.List.Edits.{sets};
ghost use Rattle.format.specs.Goals.{goals_at};
ghost use Rattle.format.specs.Encoding.{goal_list_bytes};
ghost use Rattle.files.specs.Derivations.{use_entry, open_entry, entry_bytes, entries_bytes};
ghost use Rattle.flattener.specs.Prints.{PrintReady, NodePrinted, forest_entries, Printable};

use format::tags::{GOALS_TAG, OPEN_TAG, USE_TAG};
use format::values::{Goal, RuleName, value_at};
use input_arities::layout::STACK_END;
use nodes::cells::{CELLS, put_range};
use words::{copy_in, load16, store16};

// The place of the next node on the stack, and that of the next entry.
#[derive(Clone, Copy)]
pub struct Printed {
    pub top: usize,
    pub at: usize,
}

// The list of the roots: goals that stand in a file are copied as they are.
pub fn write_roots(out: &mut [u8], file: &[u8], place: usize, count: usize)
    requires { (3 + count * 2 ≤ length out.old) × (place + count * 2 ≤ length file.now) × (count ≤ 256) }
    ensures { out.new ≡ sets out.old 0 (goal_list_bytes (goals_at file.now place count)) }
{
    out[0] = GOALS_TAG;
    store16(out, 1, (count * 2) as u16);
    copy_in(out, 3, file, place, count * 2);
}

// An open leaf.
fn write_open(out: &mut [u8], at: usize, goal: Goal)
    requires { at + 5 ≤ length out.old }
    ensures { out.new ≡ sets out.old at (entry_bytes (open_entry goal)) }
{
    out[at] = OPEN_TAG;
    store16(out, at + 1, 2);
    store16(out, at + 3, goal.0);
}

// A use.
fn write_use(out: &mut [u8], at: usize, name: RuleName, goal: Goal)
    requires { at + 7 ≤ length out.old }
    ensures { out.new ≡ sets out.old at (entry_bytes (use_entry name goal)) }
{
    out[at] = USE_TAG;
    store16(out, at + 1, 4);
    store16(out, at + 3, name.0);
    store16(out, at + 5, goal.0);
}

// The entry of the node on top of the stack, in whose place its premises come. The last value of a cell is 0 for an open, else one more than the number of premises: it stands in the bytes of the work space, so that it stays a number.
fn print_node(work: &mut [u8], here: Printed, out: &mut [u8]) -> Printed
    requires { PrintReady work.old here.top here.at (length out.old) }
    ensures { NodePrinted work.old work.new here.top here.at out.old out.new result }
{
    let node = load16(work, here.top) as usize;
    let cell = CELLS + node * 8;
    let goal = value_at(work, cell);
    let mark = load16(work, cell + 6) as usize;
    if mark == 0 {
        write_open(out, here.at, goal);
        return Printed {
            top: here.top + 2,
            at: here.at + 5,
        };
    }
    let name = value_at(work, cell + 2);
    let first = load16(work, cell + 4) as usize;
    write_use(out, here.at, name, goal);
    let count = mark - 1;
    let above = here.top + 2 - count * 2;
    put_range(work, above, first, count);
    Printed {
        top: above,
        at: here.at + 7,
    }
}

// The entries of a forest of so many nodes, behind what was written: one depth-first pass, with the nodes still to come on a stack.
pub fn print_forest(work: &mut [u8], roots: usize, nodes: usize, out: &mut [u8], at: usize)
    requires { Printable work.old roots nodes at (length out.old) }
    ensures { out.new ≡ sets out.old at (entries_bytes (forest_entries work.old roots nodes)) }
{
    let top = STACK_END - roots * 2;
    put_range(work, top, 0, roots);
    let mut here = Printed { top, at };
    for _ in 0..nodes {
        here = print_node(work, here, out);
    }
}
