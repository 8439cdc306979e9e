// The regions of the work space of a run that notes arities. specs/Regions says how each follows from the size of a file.
use index::layout::RULES_ROOM;
use seen::layout::SEEN_ROOM;

// The noted arities of the table and of the job.
pub const TABLE_NOTES: usize = 590848;

pub const JOB_NOTES: usize = 634538;

pub const DEFINITIONS_PLACE: usize = 678228;

pub const READING_PLACE: usize = DEFINITIONS_PLACE - SEEN_ROOM;

pub const RULES_PLACE: usize = 681556;

pub const REGIONS_END: usize = RULES_PLACE + RULES_ROOM;
