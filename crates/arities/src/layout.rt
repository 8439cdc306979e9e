// The regions of the work space: the hiproof so far, the goals, the terms that wait, which grow downwards, and the arities by tactic number.
// specs/Layout says how each follows from the most steps of a run and the most fields that it holds.
pub const OUTPUT_END: usize = 81920;

pub const FRAMES_END: usize = 459776;

pub const SPACE_END: usize = 590848;
