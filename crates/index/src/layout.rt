// The room that an index takes in the work space. specs/Layout says how each follows from the limits of document 01.

// The lowest ten digits of a key say its head.
pub const HEADS: u32 = 1024;

// The heads stand in front of the nodes.
pub const HEADS_ROOM: usize = 2048;

// An index over the rules.
pub const RULES_ROOM: usize = 22528;
