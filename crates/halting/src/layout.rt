// How long the spaces are that a maker lends; entries' specs/Halting says where the sizes come from.

// What a run uses, and a saved state behind it.
pub const HALTING_WORK: usize = 751116;

pub const MOST_FRAMES: usize = 16384;
