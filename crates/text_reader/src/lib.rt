// The reading of a text as a term.
// Document 02, P8: the entry read_text.
#![tactic(auto)]

pub mod entry;
pub mod scan;
pub mod term;
