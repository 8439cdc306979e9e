// One term begun: one function for each form of term. Every term begun counts one step.
ghost use Rattle.std.specs.Prelude.{◌≡◌, List, ℕ, ◌+◌, ◌*◌, ◌≤◌, ◌<◌, length};
ghost use Rattle.std.proofs.Math.Option.{Option, some};
ghost use Rattle.format.specs.declared.values.RuleName.{RuleName};
ghost use Rattle.format.specs.declared.values.TacticNo.{TacticNo};
ghost use Rattle.format.specs.declared.values.Goal.{Goal};
ghost use Rattle.format.specs.declared.values.Label.{Label};
ghost use Rattle.format.specs.Limits.{most_steps, most_held};
ghost use Rattle.format.specs.Goals.{goals_at};
ghost use Rattle.format.specs.Terms.{Term, atomic, id, label, sequence, tensor, empty, alternation, assert, defined, size};
ghost use Rattle.tables.specs.Tables.{Table};
ghost use Rattle.tables.specs.Standing.{TableStands};
ghost use Rattle.arities.specs.Arities.{arity_code};
ghost use Rattle.tactics.specs.Numbers.{put_header};
ghost use Rattle.machine.specs.Begun.{Room, Ready, Begins, Keeps, BeginsIn, id_next, empty_next, assert_next, sequence_next, alternation_next, label_next, tensor_next, atomic_next, rule_next, defined_next, lost, entered, frame_of};
ghost use Rattle.machine.specs.Step.{Given, BeginsAny, BeginsPair, Grown, PairStands};

use crate::state::{MOST_HELD, Mode, State};
use arities::arity::{arity_of, right_of};
use format::tags::{ASSERTION, ATOMIC, DEFINED, EMPTY, ID, LABEL, SEQUENCE, TENSOR};
use format::values::{Goal, Label, RuleName, TacticNo, value_at};
use frames::{ALTERNATION_LEFT, Frame, LABELLED, SEQUENCE_LEFT, TENSOR_LEFT, store_frame};
use tables::lookup::{RuleFound, find_body, find_rule};
use tactics::numbers::put_header;
use words::{copy_in, store16};

// The field that an assertion leaves is that of id.
const ASSERTED: u8 = ID;

impl State {
    // The term ends without a proof: it cannot take its goals, or one more field cannot be held.
    fn lose(self, mode: Mode) -> State
        requires { self.steps < most_steps }
        ensures { result ≡ lost mode self }
    {
        State {
            mode,
            steps: self.steps + 1,
            ..self
        }
    }

    // The term gives its goals back and leaves a field without contents, unless one more cannot be held.
    fn keep(self, tag: u8, work: &mut [u8]) -> State
        requires { Room work.old self }
        ensures { Keeps work.old self tag work.new result }
    {
        if MOST_HELD <= self.held {
            return self.lose(Mode::Exceeded);
        }
        put_header(work, self.out, tag, 0);
        State {
            mode: Mode::Proved,
            out: self.out + 3,
            held: self.held + 1,
            steps: self.steps + 1,
            ..self
        }
    }

    // The frame of a term that begins here, with the place of its right term and the goals that it keeps.
    #[inline(always)]
    fn frame(self, kind: u16, at: u16, count: usize, start: usize) -> Frame
        requires { (self.held ≤ most_held) × (count ≤ 256) }
        ensures { result ≡ frame_of self kind at count start }
    {
        Frame {
            kind,
            file: self.file,
            at,
            count: count as u16,
            start,
            mark: self.out,
            held: self.held as u16,
            arena: self.arena,
        }
    }

    // The inner term so many bytes on is next, on the first of the goals, under one frame more.
    #[inline(always)]
    fn enter(self, on: usize, count: usize, out: usize) -> State
        requires { (self.steps < most_steps) × (self.at < 65536) × (on ≤ 5) × (19 ≤ self.top) }
        ensures { result ≡ entered self on count out }
    {
        State {
            mode: Mode::Running,
            at: self.at + on,
            count,
            top: self.top - 19,
            out,
            steps: self.steps + 1,
            ..self
        }
    }

    fn begin_id(self, work: &mut [u8]) -> State
        requires { Ready work.old self }
        ensures begun { Begins work.old self work.new result id id_next }
        ensures grown { Grown work.old self work.new result }
    {
        if self.count != 1 {
            return self.lose(Mode::Failed);
        }
        self.keep(ID, work)
    }

    fn begin_empty(self, work: &mut [u8]) -> State
        requires { Ready work.old self }
        ensures begun { Begins work.old self work.new result empty empty_next }
        ensures grown { Grown work.old self work.new result }
    {
        if self.count != 0 {
            return self.lose(Mode::Failed);
        }
        self.keep(EMPTY, work)
    }

    // An assertion leaves id on one goal equal to its own.
    fn begin_assert(self, goal: Goal, work: &mut [u8]) -> State
        requires { Ready work.old self }
        ensures begun { (T : Table) (γ : Goal) → goal.0 ≡ γ.0 → Begins work.old self work.new result (assert γ) (assert_next T γ) }
        ensures grown { Grown work.old self work.new result }
    {
        if self.count != 1 || goal != value_at(work, self.start) {
            return self.lose(Mode::Failed);
        }
        self.keep(ASSERTED, work)
    }

    fn begin_sequence(self, right: u16, work: &mut [u8]) -> State
        requires { Ready work.old self }
        ensures begun { (t u : Term) → right ≡ self.at + 3 + size t → Begins work.old self work.new result (sequence t u) (sequence_next t u) }
        ensures grown { Grown work.old self work.new result }
    {
        put_header(work, self.out, SEQUENCE, 0);
        let next = self.enter(3, self.count, self.out + 3);
        store_frame(work, next.top, self.frame(SEQUENCE_LEFT, right, 0, 0));
        next
    }

    // An alternation leaves no field; its frame keeps the goals for the right term.
    fn begin_alternation(self, right: u16, work: &mut [u8]) -> State
        requires { Ready work.old self }
        ensures begun { (t u : Term) → right ≡ self.at + 3 + size t → Begins work.old self work.new result (alternation t u) (alternation_next t u) }
        ensures grown { Grown work.old self work.new result }
    {
        let next = self.enter(3, self.count, self.out);
        store_frame(
            work,
            next.top,
            self.frame(ALTERNATION_LEFT, right, self.count, self.start),
        );
        next
    }

    fn begin_label(self, name: Label, work: &mut [u8]) -> State
        requires { Ready work.old self × (self.at + 5 < 65536) }
        ensures begun { (l : Label) (t : Term) → name.0 ≡ l.0 → Begins work.old self work.new result (label l t) (label_next l t) }
        ensures grown { Grown work.old self work.new result }
    {
        if self.count != 1 {
            return self.lose(Mode::Failed);
        }
        put_header(work, self.out, LABEL, 0);
        store16(work, self.out + 3, name.0);
        let next = self.enter(5, self.count, self.out + 5);
        store_frame(work, next.top, self.frame(LABELLED, next.at as u16, 0, 0));
        next
    }

    // The left term takes as many goals as its arity, which comes with one added, and 0 for none; the frame keeps the others for the right term.
    fn begin_tensor(self, right: u16, arity: u16, work: &mut [u8]) -> State
        requires { Ready work.old self }
        ensures begun { (o : Option ℕ) (t u : Term) → right ≡ self.at + 3 + size t → arity ≡ arity_code o → Begins work.old self work.new result (tensor t u) (tensor_next o t u) }
        ensures grown { Grown work.old self work.new result }
    {
        if arity == 0 {
            return self.lose(Mode::Failed);
        }
        let left = (arity - 1) as usize;
        if self.count < left {
            return self.lose(Mode::Failed);
        }
        self.split(right, left, work)
    }

    // A tensor whose left term takes so many goals.
    fn split(self, right: u16, left: usize, work: &mut [u8]) -> State
        requires { Ready work.old self × (left ≤ self.count) }
        ensures begun { (t u : Term) → right ≡ self.at + 3 + size t → Begins work.old self work.new result (tensor t u) (tensor_next (some left) t u) }
        ensures grown { Grown work.old self work.new result }
    {
        put_header(work, self.out, TENSOR, 0);
        let next = self.enter(3, left, self.out + 3);
        let others = self.frame(TENSOR_LEFT, right, self.count - left, self.start + left * 2);
        store_frame(work, next.top, others);
        next
    }

    // An atomic term: its rule is looked up for its one goal.
    fn begin_atomic(self, name: RuleName, table: &[u8], first: usize, work: &mut [u8]) -> State
        requires { Ready work.old self × ((T : Table) × TableStands table.now first T) }
        ensures begun { (T : Table) (a : RuleName) → TableStands table.now first T → name.0 ≡ a.0 → Begins work.old self work.new result (atomic a) (rule_next T a) }
        ensures grown { Grown work.old self work.new result }
    {
        if self.count != 1 {
            return self.lose(Mode::Failed);
        }
        match find_rule(table, first, name, value_at(work, self.start)) {
            None => self.lose(Mode::Failed),
            Some(rule) => self.use_rule(name, rule, table, work),
        }
    }

    // The rule's premises, which lie at a place of the table, are the goals; the rule's name is the field.
    fn use_rule(self, name: RuleName, rule: RuleFound, table: &[u8], work: &mut [u8]) -> State
        requires { Ready work.old self × (rule.count ≤ 8) × (rule.place + rule.count * 2 ≤ length table.now) }
        ensures begun { (a : RuleName) → name.0 ≡ a.0 → Begins work.old self work.new result (atomic a) (atomic_next a (some (goals_at table.now rule.place rule.count))) }
        ensures grown { Grown work.old self work.new result }
    {
        if MOST_HELD <= self.held {
            return self.lose(Mode::Exceeded);
        }
        let bytes = rule.count * 2;
        put_header(work, self.out, ATOMIC, 2);
        store16(work, self.out + 3, name.0);
        copy_in(work, self.arena, table, rule.place, bytes);
        State {
            mode: Mode::Proved,
            start: self.arena,
            count: rule.count,
            arena: self.arena + bytes,
            out: self.out + 5,
            held: self.held + 1,
            steps: self.steps + 1,
            ..self
        }
    }

    // A defined tactic is replaced by its body, and leaves no field.
    fn begin_defined(self, number: TacticNo, table: &[u8], first: usize, work: &[u8]) -> State
        requires { Ready work.now self × ((T : Table) × TableStands table.now first T) }
        ensures begun { (T : Table) (d : TacticNo) (job : List ℕ) → TableStands table.now first T → number.0 ≡ d.0 → BeginsIn table.now job work.now self work.now result (defined d) (defined_next T d) }
        ensures grown { Grown work.now self work.now result }
    {
        match find_body(table, first, number) {
            None => self.lose(Mode::Failed),
            Some(body) => State {
                mode: Mode::Running,
                file: 0,
                at: body,
                steps: self.steps + 1,
                ..self
            },
        }
    }

    // The term at the state's place in its file begun.
    pub fn begin(self, table: &[u8], first: usize, src: &[u8], work: &mut [u8]) -> State
        requires { Given table.now first src.now work.old self }
        ensures begun { BeginsAny table.now first src.now work.old self work.new result }
        ensures grown { Grown work.old self work.new result }
    {
        let at = self.at;
        match src[at] {
            ID => self.begin_id(work),
            EMPTY => self.begin_empty(work),
            ATOMIC => self.begin_atomic(value_at(src, at + 3), table, first, work),
            LABEL => self.begin_label(value_at(src, at + 3), work),
            ASSERTION => self.begin_assert(value_at(src, at + 3), work),
            DEFINED => self.begin_defined(value_at(src, at + 3), table, first, work),
            tag => self.begin_pair(src, tag, work),
        }
    }

    // A sequence, a tensor or an alternation begun.
    fn begin_pair(self, src: &[u8], tag: u8, work: &mut [u8]) -> State
        requires { PairStands src.now work.old self tag }
        ensures begun { BeginsPair src.now work.old self work.new result }
        ensures grown { Grown work.old self work.new result }
    {
        let right = right_of(src, self.at);
        match tag {
            SEQUENCE => self.begin_sequence(right, work),
            TENSOR => self.begin_tensor(right, arity_of(src, self.at + 3, work), work),
            _ => self.begin_alternation(right, work),
        }
    }
}
