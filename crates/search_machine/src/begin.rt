// One term begun: one function for each form of term.
ghost use Rattle.std.specs.Prelude.{◌≡◌, List, ℕ, ◌+◌, ◌*◌, ◌≤◌, ◌<◌, length};
ghost use Rattle.std.proofs.Math.Option.{some};
ghost use Rattle.format.specs.declared.values.RuleName.{RuleName};
ghost use Rattle.format.specs.declared.values.TacticNo.{TacticNo};
ghost use Rattle.format.specs.declared.values.Goal.{Goal};
ghost use Rattle.format.specs.declared.values.Label.{Label};
ghost use Rattle.format.specs.Goals.{goals_at};
ghost use Rattle.format.specs.Terms.{Term, atomic, id, label, sequence, tensor, empty, alternation, assert, defined, size};
ghost use Rattle.tables.specs.Tables.{Table};
ghost use Rattle.tables.specs.Standing.{TableStands};
ghost use Rattle.evaluation.specs.Outcomes.{one_goal, no_goal, assert_gives, rule_gives};
ghost use Rattle.index.specs.Build.{RulesIndexed, DefinitionsIndexed};
ghost use Rattle.tactics.specs.Numbers.{put_header};
ghost use Rattle.outline.specs.Layout.{outline_end};
ghost use Rattle.search_machine.specs.Layout.{definitions_place, rules_place};
ghost use Rattle.search_machine.specs.Moves.{giving, noted};
ghost use Rattle.search_machine.specs.Begun.{Room, Stays, DoesIn, Does, leaf_next, sequence_next, alternation_next, label_next, tensor_next, defined_next};

use crate::layout::{DEFINITIONS_PLACE, RULES_PLACE};
use crate::nodes::{BLANK, NEXT_SPLIT, Node, OR_ELSE, SEQUENCE_LEFT};
use crate::state::State;
use format::tags::{ATOMIC, EMPTY, ID, LABEL, SEQUENCE, TENSOR};
use format::values::{Goal, Label, RuleName, TacticNo, value_at};
use index::lookup::{find_body, find_rule};
use tables::lookup::RuleFound;
use words::copy_in;

impl State {
    // A form without inner terms, which leaves its field.
    fn leaf(self, tag: u8, value: u16, work: &mut [u8]) -> State
        requires { (self.outline + 3 ≤ outline_end) × (outline_end ≤ length work.old) }
        ensures written { work.new ≡ put_header work.old self.outline tag value }
        ensures state { result ≡ giving (noted self) }
    {
        let s = self.note(tag, value, work);
        s.give()
    }

    // The next two differ in their definitions (one_goal and no_goal) as in a number and a tag: one function for both would be no plainer.
    pub fn begin_id(self, work: &mut [u8]) -> State
        requires { Room work.old self }
        ensures begun { Does work.old self work.new result id (leaf_next id one_goal) }
        ensures stays { Stays work.old self work.new result }
    {
        if self.count != 1 {
            return self.fail();
        }
        self.leaf(ID, 0, work)
    }

    pub fn begin_empty(self, work: &mut [u8]) -> State
        requires { Room work.old self }
        ensures begun { Does work.old self work.new result empty (leaf_next empty no_goal) }
        ensures stays { Stays work.old self work.new result }
    {
        if self.count != 0 {
            return self.fail();
        }
        self.leaf(EMPTY, 0, work)
    }

    // An assertion leaves id on one goal equal to its own.
    pub fn begin_assert(self, goal: Goal, work: &mut [u8]) -> State
        requires { Room work.old self }
        ensures begun { (T : Table) (γ : Goal) → goal.0 ≡ γ.0 → Does work.old self work.new result (assert γ) (leaf_next id (assert_gives T γ)) }
        ensures stays { Stays work.old self work.new result }
    {
        if self.count != 1 {
            return self.fail();
        }
        if goal != value_at(work, self.start) {
            return self.fail();
        }
        self.leaf(ID, 0, work)
    }

    pub fn begin_sequence(self, down: u16, right: usize, work: &mut [u8]) -> State
        requires { Room work.old self × (right < 65536) × (down + 2 ≡ self.level) }
        ensures begun { (t u : Term) → right ≡ self.at + 3 + size t → Does work.old self work.new result (sequence t u) (sequence_next down t u) }
        ensures stays { Stays work.old self work.new result }
    {
        let s = self.note(SEQUENCE, 0, work);
        let n = Node {
            kind: SEQUENCE_LEFT,
            level: down,
            at: right,
            link: s.link,
            ..BLANK
        };
        let t = s.push(n, work);
        t.enter(down, self.at + 3, self.start, self.count)
    }

    // The right term is kept as a choice.
    pub fn begin_alternation(self, down: u16, right: usize, work: &mut [u8]) -> State
        requires { Room work.old self × (right < 65536) × (down + 2 ≡ self.level) }
        ensures begun { (t u : Term) → right ≡ self.at + 3 + size t → Does work.old self work.new result (alternation t u) (alternation_next down t u) }
        ensures stays { Stays work.old self work.new result }
    {
        let n = Node {
            kind: OR_ELSE,
            level: down,
            at: right,
            link: self.link,
            start: self.start,
            count: self.count,
            mark: self.outline,
            other: self.choice,
            ..BLANK
        };
        let s = self.offer(n, work);
        s.enter(down, self.at + 3, self.start, self.count)
    }

    pub fn begin_label(self, down: u16, name: Label, work: &mut [u8]) -> State
        requires { Room work.old self × (down + 2 ≡ self.level) }
        ensures begun { (l : Label) (t : Term) → name.0 ≡ l.0 → Does work.old self work.new result (label l t) (label_next down l t) }
        ensures stays { Stays work.old self work.new result }
    {
        if self.count != 1 {
            return self.fail();
        }
        let s = self.note(LABEL, name.0, work);
        s.enter(down, self.at + 5, self.start, self.count)
    }

    // A tensor on its first split, all goals to the right; the splits behind it are kept as a choice.
    pub fn begin_tensor(self, down: u16, right: usize, work: &mut [u8]) -> State
        requires { Room work.old self × (right < 65536) × (down + 2 ≡ self.level) }
        ensures begun { (t u : Term) → right ≡ self.at + 3 + size t → Does work.old self work.new result (tensor t u) (tensor_next down t u) }
        ensures stays { Stays work.old self work.new result }
    {
        let at = self.at + 3;
        let start = self.start;
        let count = self.count;
        let s = self.note(TENSOR, 0, work);
        if count == 0 {
            return s.part(down, at, right, start, 0, 0, work);
        }
        let n = Node {
            kind: NEXT_SPLIT,
            level: down,
            at,
            link: s.link,
            start,
            count: count - 1,
            left: 1,
            mark: s.outline,
            right,
            other: s.choice,
        };
        let t = s.offer(n, work);
        t.part(down, at, right, start, 0, count, work)
    }

    // An atomic term: its rule is looked up for its one goal.
    pub fn begin_atomic(self, name: RuleName, table: &[u8], first: usize, work: &mut [u8]) -> State
        requires { Room work.old self × ((T : Table) × TableStands table.now first T) × RulesIndexed table.now first work.old rules_place }
        ensures begun { (T : Table) (a : RuleName) → TableStands table.now first T → name.0 ≡ a.0 → Does work.old self work.new result (atomic a) (leaf_next (atomic a) (rule_gives T a)) }
        ensures stays { Stays work.old self work.new result }
    {
        if self.count != 1 {
            return self.fail();
        }
        let goal = value_at(work, self.start);
        match find_rule(table, first, work, RULES_PLACE, name, goal) {
            Some(rule) => self.use_rule(name, rule, table, work),
            None => self.fail(),
        }
    }

    // The rule's premises, which lie at a place of the table, are the goals; the rule's name is its field.
    fn use_rule(self, name: RuleName, rule: RuleFound, table: &[u8], work: &mut [u8]) -> State
        requires { Room work.old self × (rule.count ≤ 8) × (rule.place + rule.count * 2 ≤ length table.now) }
        ensures begun { (a : RuleName) → name.0 ≡ a.0 → Does work.old self work.new result (atomic a) (leaf_next (atomic a) (λ g. some (goals_at table.now rule.place rule.count))) }
        ensures stays { Stays work.old self work.new result }
    {
        let arena = self.arena;
        copy_in(work, arena, table, rule.place, rule.count * 2);
        let s = self.hold(arena, rule.count, arena + rule.count * 2);
        s.leaf(ATOMIC, name.0, work)
    }

    // A defined tactic is replaced by its body.
    pub fn begin_defined(
        self,
        down: u16,
        number: TacticNo,
        table: &[u8],
        first: usize,
        work: &[u8],
    ) -> State
        requires { Room work.now self × ((T : Table) × TableStands table.now first T) × DefinitionsIndexed table.now first work.now definitions_place }
        ensures begun { (T : Table) (d : TacticNo) (job : List ℕ) → TableStands table.now first T → number.0 ≡ d.0 → DoesIn table.now job work.now self work.now result (defined d) (defined_next T down d) }
        ensures stays { Stays work.now self work.now result }
    {
        match find_body(table, first, work, DEFINITIONS_PLACE, number) {
            Some(place) => self.enter(down / 2 * 2, place, self.start, self.count),
            None => self.fail(),
        }
    }
}
