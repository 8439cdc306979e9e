// From the end of a term to the next term to begin: waiting terms taken off, and the way back to the last choice.
ghost use Rattle.std.specs.Prelude.{◌≡◌, ◌+◌, ◌*◌, ◌≤◌, ◌<◌, length};
ghost use Rattle.search.specs.Machine as M;
ghost use Rattle.search_machine.specs.Layout.{node_size, arena_end};
ghost use Rattle.search_machine.specs.Nodes.{node_at, put_node};
ghost use Rattle.search_machine.specs.Moves.{linked, returned, pushed, entered};
ghost use Rattle.search_machine.specs.Begun.{Stays, tensor_node, PartRoom};
ghost use Rattle.search_machine.specs.Popping.{PopRoom, tensor_right_node, Joins, SplitRoom, LastSplit, NextSplit, Waiting, Popped, Smaller, Backing, WentBack, Unwinding, Unwound};

use crate::layout::NODE_SIZE;
use crate::nodes::{BLANK, Node, OR_ELSE, SEQUENCE_LEFT, TENSOR_LEFT, TENSOR_RIGHT, load_node};
use crate::state::{Mode, State};
use tactics::goals::gather;
use words::{load16, store16};

impl State {
    // A sequence's left term ended: its right term is next, on what the left gave.
    fn pop_sequence_left(self, work: &[u8]) -> State
        requires { PopRoom work.now self }
        ensures { result ≡ entered (linked self (node_at work.now self.link).link) (node_at work.now self.link).level (node_at work.now self.link).at self.start self.count }
    {
        let n = load_node(work, self.link);
        let s = self.take_off(n.link);
        s.enter(n.level, n.at, self.start, self.count)
    }

    // A tensor's left term ended: its right term is next, on the goals that were kept for it.
    fn pop_tensor_left(self, work: &mut [u8]) -> State
        requires { PopRoom work.old self × (self.arena + node_size ≤ arena_end) }
        ensures written { work.new ≡ put_node work.old self.arena (tensor_right_node self (node_at work.old self.link).link) }
        ensures state { result ≡ entered (pushed self) (node_at work.old self.link).level (node_at work.old self.link).at (node_at work.old self.link).start (node_at work.old self.link).count }
    {
        let n = load_node(work, self.link);
        let ended = Node {
            kind: TENSOR_RIGHT,
            link: n.link,
            start: self.start,
            count: self.count,
            ..BLANK
        };
        let s = self.push(ended, work);
        s.enter(n.level, n.at, n.start, n.count)
    }

    // A tensor's right term ended: the two lists are joined.
    fn join(self, work: &mut [u8]) -> State
        requires { PopRoom work.old self × ((node_at work.old self.link).start + (node_at work.old self.link).count * 2 ≤ self.arena) × ((node_at work.old self.link).count + self.count ≤ 256) × (self.arena + 512 ≤ arena_end) }
        ensures { Joins work.old self (node_at work.old self.link) work.new result }
    {
        let n = load_node(work, self.link);
        let arena = self.arena;
        let count = n.count + self.count;
        gather(work, arena, n.start, n.count, self.start, self.count);
        let s = self.take_off(n.link);
        s.hold(arena, count, arena + count * 2)
    }

    // One waiting term taken off.
    fn pop(self, work: &mut [u8]) -> State
        requires { Waiting work.old self }
        ensures popped { Popped work.old self work.new result }
        ensures stays { Stays work.old self work.new result }
        ensures smaller { Smaller self result }
    {
        let link = self.link;
        match load16(work, link) {
            SEQUENCE_LEFT => return self.pop_sequence_left(work),
            TENSOR_LEFT => return self.pop_tensor_left(work),
            _ => {}
        }
        let left = load16(work, link + 6) as usize;
        if 256 < left + self.count {
            return self.fail();
        }
        self.join(work)
    }

    // An alternation's right term.
    fn or_else(self, work: &[u8]) -> State
        requires { self.choice + node_size ≤ length work.now }
        ensures { result ≡ entered (returned self (node_at work.now self.choice).link (node_at work.now self.choice).other self.choice (node_at work.now self.choice).mark) (node_at work.now self.choice).level (node_at work.now self.choice).at (node_at work.now self.choice).start (node_at work.now self.choice).count }
    {
        let choice = self.choice;
        let right = load_node(work, choice);
        let s = self.return_to(right.link, right.other, choice, right.mark);
        s.enter(right.level, right.at, right.start, right.count)
    }

    // A tensor's last split: no goal is left for its right term, and the choice is given up.
    fn last_split(self, work: &mut [u8]) -> State
        requires { SplitRoom work.old self }
        ensures { LastSplit work.old self work.new result }
    {
        let choice = self.choice;
        let n = load_node(work, choice);
        let s = self.return_to(n.link, n.other, choice, n.mark);
        s.part(n.level, n.at, n.right, n.start, n.left, 0, work)
    }

    // A tensor's next split; the one behind it has one goal more on the left.
    fn next_split(self, work: &mut [u8]) -> State
        requires { SplitRoom work.old self × ((node_at work.old self.choice).count ≡ 0 → ⊥) }
        ensures { NextSplit work.old self work.new result }
    {
        let choice = self.choice;
        let n = load_node(work, choice);
        store16(work, choice + 6, (n.count - 1) as u16);
        store16(work, choice + 16, (n.left + 1) as u16);
        let s = self.return_to(n.link, choice, choice + NODE_SIZE, n.mark);
        s.part(n.level, n.at, n.right, n.start, n.left, n.count, work)
    }

    // A tensor's left term on the first of its goals, the others kept for the right one.
    pub fn part(
        self,
        down: u16,
        at: usize,
        right: usize,
        start: usize,
        left: usize,
        count: usize,
        work: &mut [u8],
    ) -> State
        requires { PartRoom work.old self at right start left count }
        ensures written { work.new ≡ put_node work.old self.arena (tensor_node self down right start left count) }
        ensures state { result ≡ entered (pushed self) down at start left }
    {
        let n = Node {
            kind: TENSOR_LEFT,
            level: down,
            at: right,
            link: self.link,
            start: start + left * 2,
            count,
            ..BLANK
        };
        let s = self.push(n, work);
        s.enter(down, at, start, left)
    }

    // To the last choice, if there is one.
    fn go_back(self, work: &mut [u8]) -> State
        requires { Backing work.old self }
        ensures back { WentBack work.old self work.new result }
        ensures stays { Stays work.old self work.new result }
    {
        let choice = self.choice;
        if choice == 0 {
            return self;
        }
        let kind = load16(work, choice);
        if kind == OR_ELSE {
            return self.or_else(work);
        }
        let count = load16(work, choice + 6);
        if count == 0 {
            return self.last_split(work);
        }
        self.next_split(work)
    }

    // To the next term to begin, or to the end of the search.
    pub fn unwind(self, work: &mut [u8]) -> State
        requires { Unwinding work.old self }
        ensures unwound { Unwound work.old self work.new result }
        ensures stays { Stays work.old self work.new result }
    {
        let mut s = self;
        while s.mode == Mode::Gave {
            if s.link == 0 {
                return s;
            }
            s = s.pop(work);
        }
        if s.mode == Mode::Running {
            return s;
        }
        s.go_back(work)
    }
}
