// The paper's validation and derivations over the types of format, tables and files: definitions in specs/, theorems in proofs/, and no code.
// Document 01, "Checking a hiproof" and "Flat derivations"; the paper's Fig. 2 and section 2.

#![tactic(auto)]
