// The regions of the work space. specs/Layout says how each follows from the limits of document 01.
use index::layout::HEADS_ROOM;
use whole_table::layout::READING_SCRATCH;

// The cursors of the pending goals, where the table was read, and the place behind them.
pub const CURSORS: usize = 0;

pub const CURSORS_END: usize = CURSORS + 16384;

// The set of the rules used, behind the cursors.
pub const SET: usize = CURSORS_END;

// The index over the table's rules, and its nodes.
pub const INDEX: usize = READING_SCRATCH;

pub const NODES: usize = INDEX + HEADS_ROOM;
