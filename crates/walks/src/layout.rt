// The work space of check and flatten behind the regions of crate input_arities, the index over the rules; and what marks a frame.
use index::layout::RULES_ROOM;
use input_arities::layout::ARITIES_END;

pub const INDEX_END: usize = ARITIES_END + RULES_ROOM;

// Added to a place on the stacks in the frame of a tensor that waits for its right term: no place is as large.
pub const BEGAN: usize = 32768;
