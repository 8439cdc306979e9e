// The writer of a proof from a flat derivation: its fields, the plan of the entries, trees, sizes, goal lists and file, and the entry write_proof.
// Document 01, "Flat derivations": writing a proof; 28, 27 and 26.
#![tactic(auto)]

pub mod entry;
pub mod fields;
pub mod file;
pub mod lists;
pub mod plan;
pub mod sizes;
pub mod trees;
