// The arities of the defined tactics of a table, each found once, and the arities of the left terms of all tensors of table and job, noted once for each.
// Document 01, "Running a tactic": "Arity of tactics"; section 2.1 of the paper.
#![tactic(auto)]

pub mod answer;
pub mod ask;
pub mod notes;
pub mod regions;
pub mod walk;
pub mod walks;
