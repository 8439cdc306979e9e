// The walk of a hiproof as one loop, on two stacks of values and a stack of waiting terms in one work space.
ghost use Rattle.std.specs.Prelude.{List, ℕ, ◌+◌, ◌≤◌};
ghost use Rattle.tables.specs.Tables.{Table};
ghost use Rattle.walks.specs.Made.{Made};
ghost use Rattle.walks.specs.Loops.{Aim, Roomy, Begins, placed, start_of, Leaf};
ghost use Rattle.walks.specs.Leaves.{Still, Goes, Ends};

use crate::labels::{label_count_wrong, unlabelled};
use crate::leaves::Leaves;
use crate::state::{Ended, Next, Turn};
use format::refusals::{Cause, Refusal};
use format::tags::{SEQUENCE, TENSOR};
use words::load16;

// A term without labels that is no sequence and no tensor acts and ends.
fn begin_leaf<L: Leaves>(
    leaves: &mut L,
    proof: &[u8],
    at: usize,
    work: &mut [u8],
    n: Next,
) -> Result<Turn, Refusal>
    requires { ((T : Table) × (x : Aim (Made L.code)) × (A : List (Made L.code)) × Still (L.ready leaves.old T x) A proof.now work.old × Begins (L.acts T) x A proof.now work.old (placed n at)) × Roomy proof.now work.old × Leaf proof.now at }
    ensures { (T : Table) (x : Aim (Made L.code)) (A : List (Made L.code)) → Still (L.ready leaves.old T x) A proof.now work.old → Begins (L.acts T) x A proof.now work.old (placed n at) → Goes (L.ready leaves.new T x) (L.acts T) x proof.now work.new (at + 1) result }
{
    let acted = match leaves.act(proof, at, work, n) {
        Ok(acted) => acted,
        Err(cause) => return Err(Refusal::new(cause, at)),
    };
    let behind = at + 3 + load16(proof, at + 1) as usize;
    let ended = Ended {
        given: acted.given,
        uses: n.uses + acted.uses,
    };
    n.resume(proof, work, behind, ended)
}

// One step: the term that is next begins. Labels pass their one value on as it is: only the outermost is tested.
fn step<L: Leaves>(leaves: &mut L, proof: &[u8], work: &mut [u8], n: Next) -> Result<Turn, Refusal>
    requires { ((T : Table) × (x : Aim (Made L.code)) × (A : List (Made L.code)) × Still (L.ready leaves.old T x) A proof.now work.old × Begins (L.acts T) x A proof.now work.old n) × Roomy proof.now work.old }
    ensures { (T : Table) (x : Aim (Made L.code)) (A : List (Made L.code)) → Still (L.ready leaves.old T x) A proof.now work.old → Begins (L.acts T) x A proof.now work.old n → Goes (L.ready leaves.new T x) (L.acts T) x proof.now work.new (n.at + 1) result }
{
    if label_count_wrong(proof, n.at, n.count) {
        return Err(Refusal::new(Cause::GoalCountWrong, n.at));
    }
    let at = unlabelled(proof, n.at);
    match proof[at] {
        SEQUENCE => Ok(n.begin_sequence(work, at)),
        TENSOR => n.begin_tensor(work, at),
        _ => begin_leaf(leaves, proof, at, work, n),
    }
}

// The term at a place takes so many values from the end of the stacks, and puts those that it gives at their start.
pub fn walk<L: Leaves>(
    leaves: &mut L,
    proof: &[u8],
    at: usize,
    work: &mut [u8],
    count: usize,
) -> Result<Ended, Refusal>
    requires { ((T : Table) × (x : Aim (Made L.code)) × (A : List (Made L.code)) × Still (L.ready leaves.old T x) A proof.now work.old × Begins (L.acts T) x A proof.now work.old (start_of at count)) × Roomy proof.now work.old × (count ≤ 256) }
    ensures { (T : Table) (x : Aim (Made L.code)) (A : List (Made L.code)) → Still (L.ready leaves.old T x) A proof.now work.old → Begins (L.acts T) x A proof.now work.old (start_of at count) → Ends (L.ready leaves.new T x) x proof.now work.new result }
{
    let mut n = Next::start(at, count);
    loop {
        match step(leaves, proof, work, n)? {
            Turn::Begin(next) => n = next,
            Turn::Ended(ended) => return Ok(ended),
        }
    }
}
