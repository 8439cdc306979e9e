// The walk of a hiproof over nodes, with the checker's refusals: an atomic makes its node a use.
ghost use Rattle.std.specs.Prelude.{◌≤◌};
ghost use Rattle.tables.specs.Tables.{Table};
ghost use Rattle.hitac.proofs.Nodes.{Cell};
ghost use Rattle.walks.specs.Made.{overNodes};
ghost use Rattle.walks.specs.Loops.{Aim, Begins, start_of};
ghost use Rattle.nodes.specs.Space.{cells_of};
ghost use Rattle.nodes.specs.NodeActs.{node_act};
ghost use Rattle.nodes.specs.Walks.{Walkable, Ends, nodes_ready};

use crate::leaf::act;
use format::refusals::{Cause, Refusal};
use walks::leaves::Leaves;
use walks::state::{Ended, Next};
use walks::walk::walk as walk_leaves;

// What the walk comes to: the number of nodes given, of uses and of all nodes.
#[derive(Clone, Copy)]
pub struct Walked {
    pub given: usize,
    pub uses: usize,
    pub nodes: usize,
}

// The nodes of a walk by the rules of a table, of which `next` is the first that is free.
#[derive(Drop)]
struct Nodes<'a> {
    table: &'a [u8],
    first: usize,
    next: usize,
}

impl<'a> Leaves for Nodes<'a> {
    ghost code = { overNodes };

    ghost acts = { node_act };

    ghost ready = { λ m. nodes_ready m.table.now m.first m.next };

    fn act(&mut self, proof: &[u8], at: usize, work: &mut [u8], n: Next) -> Result<Ended, Cause> {
        let taken = act(self.table, self.first, proof, at, work, n, self.next)?;
        self.next = taken.next;
        Ok(Ended {
            given: taken.given,
            uses: taken.used,
        })
    }
}

// The term at a place takes the first nodes, as many as count says, from the end of the stacks, and puts those that it gives at their start.
pub fn walk(
    table: &[u8],
    first: usize,
    proof: &[u8],
    at: usize,
    count: usize,
    work: &mut [u8],
) -> Result<Walked, Refusal>
    requires { ((T : Table) × (x : Aim Cell) × Walkable T x table.now first proof.now work.old × Begins (node_act T) x (cells_of work.old count) proof.now work.old (start_of at count)) × (count ≤ 256) }
    ensures { (T : Table) (x : Aim Cell) → Walkable T x table.now first proof.now work.old → Begins (node_act T) x (cells_of work.old count) proof.now work.old (start_of at count) → Ends x proof.now work.new result }
{
    let mut nodes = Nodes {
        table,
        first,
        next: count,
    };
    let ended = walk_leaves(&mut nodes, proof, at, work, count)?;
    Ok(Walked {
        given: ended.given,
        uses: ended.uses,
        nodes: nodes.next,
    })
}
