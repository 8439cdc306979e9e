// The entries as functions of byte lists: definitions in specs/, worked lines in proofs/, and no code.
// Document 01, from "Checking a hiproof" to "A table and its edges".

#![tactic(auto)]
