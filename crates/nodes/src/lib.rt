// The walk of a proof over nodes, with the checker's refusals: each goal occurrence is a node, and what is known of it is written into its cell.
// Document 01, "Flat derivations": the forest of a hiproof on its goals.
#![tactic(auto)]

pub mod cells;
pub mod leaf;
pub mod walk;
