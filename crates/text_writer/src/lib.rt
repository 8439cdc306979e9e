// The writing of a term as text.
// Document 02, P8: the entry write_text.
#![tactic(auto)]

pub mod entry;
pub mod marks;
pub mod spelling;
pub mod stack;
pub mod writing;
