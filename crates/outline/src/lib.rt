// A hiproof's bytes from its outline: the tags and values of its fields, three bytes each, without lengths.
// A field encloses terms that stand behind it, so fields are taken from the last to the first: whatever one encloses is written, and its length is known.
#![tactic(auto)]

pub mod fields;
pub mod write;
