// The room that reading a table takes in the work space. specs/Layout says how it follows from the limits of document 01.

// What reading a table takes besides the index over the rules.
pub const READING_SCRATCH: usize = 36096;
