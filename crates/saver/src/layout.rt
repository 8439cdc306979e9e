// The saved state lies in the work space where the part that a run uses ends; entries' specs/SavedState says where its size comes from.
pub const SAVED_SIZE: usize = 160268;
