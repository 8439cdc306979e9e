// The terms that have no inner term, at any walk: what the checker and the flattener each do with them.
ghost use Rattle.std.specs.Prelude.{List, ℕ};
ghost use Rattle.tables.specs.Tables.{Table};
ghost use Rattle.walks.specs.Walks.{Act};
ghost use Rattle.walks.specs.Made.{WalkCode, Made};
ghost use Rattle.walks.specs.Loops.{Aim, Roomy, Begins, placed, Leaf};
ghost use Rattle.walks.specs.Leaves.{LeafTurned};

use crate::state::{Ended, Next};
use format::refusals::Cause;

pub trait Leaves {
    // what the walk makes, by its code
    ghost code: { WalkCode };

    // what a term comes to by a table
    ghost acts: { Table → Act (Made code) };

    // whether these leaves act so in a work space, on the way to an aim, with those made so far
    ghost ready: { Self → Table → Aim (Made code) → List (Made code) → (s w : List ℕ) → Type 0 };

    // The term at a place takes its values and gives its own. It is refused at its own place.
    fn act(&mut self, proof: &[u8], at: usize, work: &mut [u8], n: Next) -> Result<Ended, Cause>
        requires { ((T : Table) × (x : Aim (Made code)) × (A : List (Made code)) × ready self.old T x A proof.now work.old × Begins (acts T) x A proof.now work.old (placed n at)) × Roomy proof.now work.old × Leaf proof.now at }
        ensures { (T : Table) (x : Aim (Made code)) (A : List (Made code)) → ready self.old T x A proof.now work.old → Begins (acts T) x A proof.now work.old (placed n at) → LeafTurned (ready self.new T x) (acts T) x proof.now work.new n at result };
}
