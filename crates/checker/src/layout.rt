// The region of the work space behind those of crate walks: the set of the rules used. specs/Layout says how it follows from the limits of document 01.
use walks::layout::INDEX_END;

pub const SET: usize = INDEX_END;
