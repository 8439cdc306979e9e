// The tactic machine over bytes: its control state by value and its step; the hiproof so far, the goals and the terms that wait in lent work space.
// Document 01, "Running a tactic": "A step begins one term and leaves the next state"; section 4.1 of the paper.
#![tactic(auto)]

pub mod begin;
pub mod state;
pub mod unwind;
