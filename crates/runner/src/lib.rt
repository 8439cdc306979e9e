// The entry run: the machine's steps on a job, from its first state to the answer and the proof file.
// Document 01, "Running a tactic"; 22 to 26 and 29 of "What the state brings about".
#![tactic(auto)]

pub mod entry;
pub mod finish;
pub mod job;
pub mod last;
pub mod run;
