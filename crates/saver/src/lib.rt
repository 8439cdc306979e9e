// The saved state of a halted run, written into work space behind what a run uses: its step count, the fields finished so far, and the waiting terms.
// Document 02, P1; document 01, "Places and their forms": "the waiting terms, each with its goals still to come, innermost last".
#![tactic(auto)]

pub mod finished;
pub mod gather;
pub mod head;
pub mod last;
pub mod layout;
pub mod save;
pub mod waiting;
