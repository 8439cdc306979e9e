// The remaining goals: those of the nodes that the walk gave, against the stated ones.
ghost use Rattle.std.specs.Prelude.{◌≡◌, ℕ, ◌+◌, ◌*◌, ◌<◌, ◌≤◌, ◌↔◌, ◌≢◌, IsTrue, true, false, length};
ghost use Rattle.words.specs.Word.{word};
ghost use Rattle.format.specs.Goals.{goals_at};
ghost use Rattle.entries.specs.Check.{same_goals};
ghost use Rattle.input_arities.specs.Layout.{stack_end};
ghost use Rattle.walks.specs.Values.{values_at};
ghost use Rattle.nodes.specs.Space.{most_nodes, cell_place, cells_end, Below, goals_in};

use nodes::cells::CELLS;
use words::load16;

// The checker compares the goals themselves; here each stands in the cell of a node, so that the two searches read in different ways.
// Whether the goal of the node at a place of the stacks is the one at a place of the proof.
fn same_goal(work: &[u8], at: usize, proof: &[u8], place: usize) -> bool
    requires { (at + 2 ≤ stack_end) × (cells_end ≤ length work.now) × (word work.now at < most_nodes) × (place + 2 ≤ length proof.now) }
    ensures { IsTrue result ↔ (word work.now (cell_place (word work.now at)) ≡ word proof.now place) }
{
    let node = load16(work, at) as usize;
    load16(work, CELLS + node * 8) == load16(proof, place)
}

// Whether the goal of each of so many nodes from the start of the stacks on is the one of the same number from a place of the proof on.
fn each_same(work: &[u8], count: usize, proof: &[u8], from: usize) -> bool
    requires nodes { (k : ℕ) → k < count → word work.now (k * 2) < most_nodes }
    requires inside { (count * 2 ≤ stack_end) × (cells_end ≤ length work.now) × (from + count * 2 ≤ length proof.now) }
    ensures same { result ≡ true → (k : ℕ) → k < count → word work.now (cell_place (word work.now (k * 2))) ≡ word proof.now (from + k * 2) }
    ensures other { result ≡ false → (k : ℕ) × (k < count) × (word work.now (cell_place (word work.now (k * 2))) ≢ word proof.now (from + k * 2)) }
{
    (0..count).all(|i| same_goal(work, i * 2, proof, from + i * 2))
}

// Whether the goals of so many nodes from the start of the stacks on are those from a place of the proof on.
pub fn same_goals(work: &[u8], given: usize, proof: &[u8], from: usize, stated: usize) -> bool
    requires { Below most_nodes (values_at work.now 0 given) × (given * 2 ≤ stack_end) × (cells_end ≤ length work.now) × (from + stated * 2 ≤ length proof.now) }
    ensures { result ≡ same_goals (goals_in work.now (values_at work.now 0 given)) (goals_at proof.now from stated) }
{
    given == stated && each_same(work, given, proof, from)
}
