// The entries run_halting and resume: a run that may halt, and a run that goes on from the state saved of a halted one.
// Document 02, P1, "Stepping for the debugger": 24 with the saved state, 25 for both budgets together, 30.
#![tactic(auto)]

pub mod again;
pub mod entry;
pub mod finish;
pub mod first;
pub mod go_on;
pub mod halted;
pub mod layout;
pub mod same;
