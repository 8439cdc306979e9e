// A term asked for its arity: told at once, or an inner term or a body is asked first.
ghost use Rattle.std.specs.Prelude.{◌≡◌, ◌+◌, ◌*◌, ◌<◌, ◌≤◌, length};
ghost use Rattle.std.proofs.Math.Option.{some};
ghost use Rattle.words.specs.Word.{put_word};
ghost use Rattle.tactics.specs.Numbers.{put_header};
ghost use Rattle.arities.specs.Layout.{frames_end};
ghost use Rattle.arity_notes.specs.Regions.{regions_end};
ghost use Rattle.arity_notes.specs.declared.walk.Next.TheVariants.{Asks};
ghost use Rattle.arity_notes.specs.Walks.{Given, Turns, TacticGiven, TacticTurns};

use crate::regions::DEFINITIONS_PLACE;
use crate::walk::{BODY, COMMON_LEFT, SUM_LEFT, Walk};
use arities::layout::FRAMES_END;
use format::tags::{ALTERNATION, DEFINED, EMPTY, SEQUENCE, TENSOR};
use format::values::{TacticNo, value_at};
use index::lookup::find_body;
use words::{load16, store16};

impl Walk {
    // The body of a tactic of which nothing is known is asked. Where the tactic is met again before its body has told its arity, it depends on itself and has none.
    fn enter(self, number: TacticNo, body: usize, work: &mut [u8]) -> Walk
        requires { (self.top < 1000000) × (self.top + 2 < length work.old) × (regions_end ≤ length work.old) }
        ensures written { work.new ≡ put_header (put_word work.old (frames_end + number.0 * 2) 1) self.top 5 number.0 }
        ensures next { result ≡ record { next = Asks body; top = self.top + 3 } }
    {
        store16(work, FRAMES_END + (number.0 as usize) * 2, 1);
        self.wait(BODY, number.0, body, work)
    }

    // A defined tactic asked for its arity.
    pub fn ask_tactic(self, number: TacticNo, table: &[u8], first: usize, work: &mut [u8]) -> Walk
        requires { TacticGiven table.now first work.old self number.0 }
        ensures { TacticTurns table.now first work.old self number.0 work.new result }
    {
        let known = load16(work, FRAMES_END + (number.0 as usize) * 2);
        if known != 0 {
            return self.tell(known - 1, self.top);
        }
        match find_body(table, first, work, DEFINITIONS_PLACE, number) {
            None => self.tell(0, self.top),
            Some(body) => self.enter(number, body, work),
        }
    }

    // The term at the walk's place asked for its arity.
    pub fn ask(
        self,
        at: usize,
        table: &[u8],
        first: usize,
        src: &[u8],
        base: usize,
        work: &mut [u8],
    ) -> Walk
        requires { Given table.now first src.now base work.old self × (self.next ≡ Asks at) }
        ensures { Turns table.now first src.now base work.old self work.new result }
    {
        match src[at] {
            SEQUENCE => self.go(at + 3),
            TENSOR => self.wait(SUM_LEFT, at as u16, at + 3, work),
            ALTERNATION => self.wait(COMMON_LEFT, at as u16, at + 3, work),
            DEFINED => self.ask_tactic(value_at(src, at + 3), table, first, work),
            EMPTY => self.tell(1, self.top),
            _ => self.tell(2, self.top),
        }
    }
}
