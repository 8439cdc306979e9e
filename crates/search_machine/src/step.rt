// A step of the search: one term counted and begun, by its tag, then the way to the next term; and the steps one after another.
ghost use Rattle.std.specs.Prelude.{◌+◌, ◌%◌};
ghost use Rattle.tables.specs.Tables.{Table};
ghost use Rattle.tables.specs.Standing.{TableStands};
ghost use Rattle.tactics.specs.Source.{source};
ghost use Rattle.search_machine.specs.Begun.{Stays};
ghost use Rattle.search_machine.specs.Step.{TableIndexed, Stood, InnerTag, PairTag, BeginsAny, BeginsPair, Given, Stepped, Grown, Started, Ran};

use crate::state::{Mode, State};
use arities::arity::right_of;
use format::tags::{ASSERTION, ATOMIC, DEFINED, EMPTY, ID, LABEL, SEQUENCE, TENSOR};
use format::values::value_at;

impl State {
    // The term at the state's place in its file begun; one that would begin an inner term fails if no level is left.
    fn begin(self, table: &[u8], first: usize, src: &[u8], work: &mut [u8]) -> State
        requires { Stood src.now work.old self × ((T : Table) × TableStands table.now first T) × TableIndexed table.now first work.old }
        ensures begun { BeginsAny table.now first src.now work.old self work.new result }
        ensures stays { Stays work.old self work.new result }
    {
        let at = self.at;
        match src[at] {
            ID => self.begin_id(work),
            EMPTY => self.begin_empty(work),
            ATOMIC => self.begin_atomic(value_at(src, at + 3), table, first, work),
            ASSERTION => self.begin_assert(value_at(src, at + 3), work),
            _ if self.level < 2 => self.fail(),
            tag => self.begin_inner(self.level - 2, tag, table, first, src, work),
        }
    }

    // A form with inner terms, which may begin so many levels below them.
    fn begin_inner(
        self,
        down: u16,
        tag: u8,
        table: &[u8],
        first: usize,
        src: &[u8],
        work: &mut [u8],
    ) -> State
        requires { Stood src.now work.old self × ((T : Table) × TableStands table.now first T) × TableIndexed table.now first work.old × InnerTag src.now self tag down }
        ensures begun { BeginsAny table.now first src.now work.old self work.new result }
        ensures stays { Stays work.old self work.new result }
    {
        let at = self.at;
        match tag {
            LABEL => self.begin_label(down, value_at(src, at + 3), work),
            DEFINED => self.begin_defined(down, value_at(src, at + 3), table, first, work),
            _ => self.begin_pair(down, tag, src, work),
        }
    }

    // A sequence, a tensor or an alternation begun.
    fn begin_pair(self, down: u16, tag: u8, src: &[u8], work: &mut [u8]) -> State
        requires { Stood src.now work.old self × PairTag src.now self tag down }
        ensures begun { BeginsPair src.now work.old self work.new result }
        ensures stays { Stays work.old self work.new result }
    {
        let right = right_of(src, self.at) as usize;
        match tag {
            SEQUENCE => self.begin_sequence(down, right, work),
            TENSOR => self.begin_tensor(down, right, work),
            _ => self.begin_alternation(down, right, work),
        }
    }

    // One term of a file counted and begun, then the next term to begin or the end of the search.
    fn step_in(self, table: &[u8], first: usize, src: &[u8], work: &mut [u8]) -> State
        requires { Given table.now first src.now work.old self }
        ensures steps { Stepped table.now first src.now work.old self work.new result }
        ensures grown { Grown work.old self work.new result }
    {
        let s = self.counted();
        let r = s.begin(table, first, src, work);
        r.unwind(work)
    }

    pub fn step(self, table: &[u8], first: usize, job: &[u8], work: &mut [u8]) -> State
        requires { Given table.now first (source table.now job.now (self.level % 2)) work.old self }
        ensures steps { Stepped table.now first (source table.now job.now (self.level % 2)) work.old self work.new result }
        ensures grown { Grown work.old self work.new result }
    {
        let src = if self.level % 2 == 0 { table } else { job };
        self.step_in(table, first, src, work)
    }
}

// At most so many steps; a term that is still to begin afterwards says that the budget is spent.
pub fn search_steps(
    from: State,
    budget: usize,
    table: &[u8],
    first: usize,
    job: &[u8],
    work: &mut [u8],
) -> State
    requires { Started table.now first job.now work.old from budget }
    ensures { Ran table.now first job.now work.old from budget work.new result }
{
    let mut s = from;
    for _ in 0..budget {
        if s.mode != Mode::Running {
            return s;
        }
        s = s.step(table, first, job, work);
    }
    s
}
