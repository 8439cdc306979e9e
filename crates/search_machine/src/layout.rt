// The regions of the work space. specs/Layout says how each follows from the limits.
use index::layout::RULES_ROOM;
use seen::layout::SEEN_ROOM;
use whole_table::layout::READING_SCRATCH;

pub const DEFINITIONS_PLACE: usize = SEEN_ROOM;

pub const RULES_PLACE: usize = READING_SCRATCH;

pub const ARENA_LOW: usize = RULES_PLACE + RULES_ROOM;

pub const NODE_SIZE: usize = 26;

pub const SPACE_END: usize = 2496256;
