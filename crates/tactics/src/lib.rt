// What running a tactic and searching with it share: numbers, headers and goals in work space, the forms of a term on its goals, and the proof file of a result.
// Document 01, "Running a tactic".
#![tactic(auto)]

pub mod file;
pub mod goals;
pub mod numbers;
