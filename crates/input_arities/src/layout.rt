// The regions of the work space of check and flatten: two stacks of values from 0 on, the terms that wait, the arities of left terms.
// specs/Layout says how each follows from the limits of the format.

pub const STACK_END: usize = 29184;

pub const FRAMES_END: usize = 37372;

pub const ARITIES_END: usize = 41466;
