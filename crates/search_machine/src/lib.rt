// A search as a machine: terms begun one after the other, terms that wait, and choices to go back to, all in lent work space; nothing calls itself.
// Document 02, P13, "Free choice with a way back".
#![tactic(auto)]

pub mod begin;
pub mod layout;
pub mod nodes;
pub mod state;
pub mod step;
pub mod unwind;
