// The pending goals: first those of lists of premises, which stand in the table; then roots, which stand in the flat file. No goal is copied: of each list that is not used up a cursor stands in the work space, the place of its first goal and how many are left, two bytes each. The first pending list has the last cursor.
ghost use Rattle.std.specs.Prelude.{◌≡◌, List, ℕ, ◌+◌, ◌*◌, ◌≤◌, ltb, length};
ghost use Rattle.format.specs.Limits.{most_bytes};
ghost use Rattle.derivation.specs.Layout.{cursors_place};
ghost use Rattle.derivation.specs.Pending.{Pends, Takes, RuleInside, Pushes};

use crate::layout::CURSORS;
use format::values::{Goal, value_at};
use words::{load16, store16};

// The lists are cursors in the work space, not a Vec: an engine in lent space has no heap.
// How many lists have goals left, and how many of the last roots are left.
#[derive(Clone, Copy)]
pub struct Pending {
    pub lists: usize,
    pub roots: usize,
}

impl Pending {
    // Whether a goal is pending.
    pub fn has_goals(self) -> bool
        ensures { result ≡ ltb 0 (self.lists + self.roots) }
    {
        0 < self.lists || 0 < self.roots
    }

    // Takes a goal off, if it is the first pending one. The flat file has `roots` roots.
    pub fn take(
        self,
        table: &[u8],
        flat: &[u8],
        roots: usize,
        work: &mut [u8],
        goal: Goal,
    ) -> Option<Pending>
        requires { Pends table.now flat.now roots work.old self × (length table.now ≤ most_bytes) }
        ensures { Takes table.now flat.now roots work.old work.new self goal result }
    {
        if self.lists == 0 {
            if self.roots == 0 {
                return None;
            }
            let root: Goal = value_at(flat, 3 + (roots - self.roots) * 2);
            if goal != root {
                return None;
            }
            return Some(Pending {
                roots: self.roots - 1,
                ..self
            });
        }
        let top = CURSORS + self.lists * 4 - 4;
        let place = load16(work, top);
        let first: Goal = value_at(table, place as usize);
        if goal != first {
            return None;
        }
        let left = load16(work, top + 2);
        if left == 1 {
            return Some(Pending {
                lists: self.lists - 1,
                ..self
            });
        }
        store16(work, top, place + 2);
        store16(work, top + 2, left - 1);
        Some(self)
    }

    // Puts the premises of the rule at a place in front of the pending goals.
    pub fn push(self, table: &[u8], rule: usize, work: &mut [u8]) -> Pending
        requires { RuleInside table.now rule × (length table.now ≤ most_bytes) × (cursors_place + self.lists * 4 + 4 ≤ length work.old) }
        ensures { (flat : List ℕ) (roots : ℕ) → Pends table.now flat roots work.old self → Pushes table.now flat roots work.old work.new rule self result }
    {
        let len = load16(table, rule + 1) as usize;
        let count = len / 2 - 2;
        if count == 0 {
            return self;
        }
        let top = CURSORS + self.lists * 4;
        let place = rule + 7;
        store16(work, top, place as u16);
        store16(work, top + 2, count as u16);
        Pending {
            lists: self.lists + 1,
            ..self
        }
    }
}
