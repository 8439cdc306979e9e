// Tactics as text: the notation, what is written and what is read, as definitions in specs/ and theorems in proofs/; the only code are two functions on tags, which reader and writer share.
// Document 02, P8.
#![tactic(auto)]

pub mod signs;
