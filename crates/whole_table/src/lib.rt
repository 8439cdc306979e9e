// Reading a table file with an index over its rules, and one over its definitions.
#![tactic(auto)]

pub mod layout;

ghost use Rattle.std.specs.Prelude.{◌≡◌, ◌+◌, ◌≤◌, length};
ghost use Rattle.index.specs.Layout.{rules_room};
ghost use Rattle.whole_table.specs.Layout.{reading_scratch};
ghost use Rattle.whole_table.specs.Reads.{refusal_at, ReadsTable};

use format::refusals::{Cause, Refusal};
use index::tree::first_clash;
use seen::first_repeat;
use seen::layout::SEEN_ROOM;
use tables::fields::{TableParts, read_fields};
use tables::repeats::Repeat;

// A refusal at the place that was found, if one was.
fn refuse_at(cause: Cause, found: Option<usize>) -> Result<(), Refusal>
    ensures { result ≡ refusal_at cause found }
{
    match found {
        Some(place) => Err(Refusal::new(cause, place)),
        None => Ok(()),
    }
}

// 1, then the fields, then 6, 7, 8, 9, each over the whole table. In the work space the index over the rules stands from `base` on; from `other` on the fields that wait while terms are read, then the tables of the searches for 7 and 9, and behind these the index over the definitions.
pub fn read_table(s: &[u8], w: &mut [u8], other: usize, base: usize) -> Result<TableParts, Refusal>
    requires { (other + reading_scratch ≤ base) × (base + rules_room ≤ length w.old) }
    ensures { ReadsTable s.now w.old w.new other base result }
{
    let end = s.len();
    if 65535 < end {
        return Err(Refusal::new(Cause::InputTooLong, 0));
    }
    let parts = read_fields(s, w, other)?;
    let first = parts.first;
    let repeated = first_clash(s, w, base, 0, first, Repeat::Rule);
    refuse_at(Cause::RuleRepeated, repeated)?;
    let recounted = first_repeat(s, w, other, 0, first, Repeat::PremiseCount);
    refuse_at(Cause::PremiseCountDiffers, recounted)?;
    let redefined = first_clash(s, w, other + SEEN_ROOM, first, end, Repeat::Tactic);
    refuse_at(Cause::TacticRedefined, redefined)?;
    let reused = first_repeat(s, w, other, first, end, Repeat::Label);
    refuse_at(Cause::LabelRepeated, reused)?;
    Ok(parts)
}
