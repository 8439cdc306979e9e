// Worked lines of long runs, and of going on from states of full size, in a crate of their own: to compute them takes longer than all the others, and no other crate needs them.
// Document 02, P12 and P1. Lines in specs/, their proofs in proofs/, and no code.

#![tactic(auto)]
