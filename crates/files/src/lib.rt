// Proof, job, term and flat files.
// Document 01, "Fields": the proof, job and flat files; document 02, P8: the term file; "What the bytes bring about": 1 to 5.
#![tactic(auto)]

pub mod flats;
pub mod jobs;
pub mod proofs;
pub mod terms;
mod whole;
