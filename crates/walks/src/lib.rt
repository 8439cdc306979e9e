// The walk of a hiproof over 16-bit values as one loop: the terms that wait lie in the lent work space, and nothing calls itself. The checker walks over goals so, and the flattener over nodes.
// Document 01, "Checking a hiproof"; 20 and 22 of "What the state brings about"; document 02, P5, 34 and 35.
#![tactic(auto)]

pub mod begin;
pub mod labels;
pub mod layout;
pub mod leaves;
pub mod state;
pub mod waiting;
pub mod walk;
