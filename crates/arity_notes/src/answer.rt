// An arity told to the term that waits for it.
ghost use Rattle.std.specs.Prelude.{◌≡◌, List, ℕ, ◌+◌, ◌*◌, ◌-◌, ◌≤◌, ◌<◌, length};
ghost use Rattle.words.specs.Word.{put_word};
ghost use Rattle.format.specs.Terms.{Term, size};
ghost use Rattle.input_arities.specs.Threads.{slot};
ghost use Rattle.tactics.specs.Numbers.{put_header};
ghost use Rattle.arities.specs.Layout.{frames_end};
ghost use Rattle.arity_notes.specs.Regions.{notes_room, regions_end};
ghost use Rattle.arities.specs.Arities.{Pair};
ghost use Rattle.arity_notes.specs.declared.walk.Next.TheVariants.{Asks, Tells};
ghost use Rattle.arity_notes.specs.Walks.{Given, Turns};

use crate::walk::{BODY, COMMON_LEFT, COMMON_RIGHT, SUM_LEFT, SUM_RIGHT, Walk};
use arities::arity::right_of;
use arities::codes::{common, sum};
use arities::layout::FRAMES_END;
use tactics::numbers::put_header;
use words::{load16, store16};

impl Walk {
    // The left term of the tensor or alternation at a place told its arity: it is noted, and the right term is asked. A note for an alternation is not read by
    // anyone; to leave it out would cost more.
    fn turn_right(
        self,
        kind: u8,
        at: usize,
        arity: u16,
        src: &[u8],
        base: usize,
        work: &mut [u8],
    ) -> Walk
        requires { (length src.now < 65536) × (3 ≤ self.top) × (self.top ≤ length work.old) × (base + notes_room ≤ length work.old) × (base < 1000000) × ((t : Term) × (u : Term) × Pair src.now at t u) }
        ensures { (t u : Term) → Pair src.now at t u → (work.new ≡ put_header (put_word work.old (base + slot (at + 3 + size t)) arity) (self.top - 3) kind arity) × (result ≡ record { next = Asks (at + 3 + size t); top = self.top }) }
    {
        let right = right_of(src, at) as usize;
        store16(work, base + right / 3 * 2, arity);
        put_header(work, self.top - 3, kind, arity);
        self.go(right)
    }

    // The body of a tactic told its arity, which is that of the tactic.
    fn learn(self, number: u16, arity: u16, work: &mut [u8]) -> Walk
        requires { (3 ≤ self.top) × (arity < 65535) × (regions_end ≤ length work.old) }
        ensures written { work.new ≡ put_word work.old (frames_end + number * 2) (arity + 1) }
        ensures next { result ≡ record { next = Tells arity; top = self.top - 3 } }
    {
        store16(work, FRAMES_END + (number as usize) * 2, arity + 1);
        self.tell(arity, self.top - 3)
    }

    // The last term that waits takes the arity that was told.
    pub fn answer(self, arity: u16, src: &[u8], base: usize, work: &mut [u8]) -> Walk
        requires { ((bytes : List ℕ) × (first : ℕ) × Given bytes first src.now base work.old self) × (self.next ≡ Tells arity) × (0 < self.top) }
        ensures { (bytes : List ℕ) (first : ℕ) → Turns bytes first src.now base work.old self work.new result }
    {
        let low = self.top - 3;
        let value = load16(work, low + 1);
        match work[low] {
            SUM_LEFT => self.turn_right(SUM_RIGHT, value as usize, arity, src, base, work),
            COMMON_LEFT => self.turn_right(COMMON_RIGHT, value as usize, arity, src, base, work),
            SUM_RIGHT => self.tell(sum(value, arity), low),
            COMMON_RIGHT => self.tell(common(value, arity), low),
            BODY => self.learn(value, arity, work),
            _ => self.tell(arity, low),
        }
    }
}
