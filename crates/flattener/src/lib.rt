// The flattener: the flat file of the forest that the nodes show once the proof was walked over them, and the entry flatten.
// Document 01, "Flat derivations": the forest of a hiproof on its goals; 26.
#![tactic(auto)]

pub mod flatten;
pub mod print;
pub mod remaining;
