// The flat-derivation checker: the pending goals, the walk over the entries, and the entry check_flat.
// Document 01, "Flat derivations": reading back; 27 of "What the state brings about". Document 02, P6: "the flat check gives the same count".
#![tactic(auto)]

pub mod check;
pub mod layout;
pub mod pending;
pub mod walk;
