// The room that a table of what was seen takes in the work space, and how many bytes of fields are few.

// A table of what was seen.
pub const SEEN_ROOM: usize = 32768;

// So many bytes of fields are read more quickly than a table of what was seen is cleared.
pub const FEW_BYTES: usize = 512;
