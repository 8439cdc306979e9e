// The entry search: the steps of a search on a job, from its first state to the answer and the proof file.
// Document 02, P13, "Free choice with a way back"; 24 to 26, 29, 41 and 42.
#![tactic(auto)]

pub mod entry;
pub mod job;
