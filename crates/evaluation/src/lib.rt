// The paper's evaluation of tactics over the types of format, tables and files: definitions in specs/, theorems in proofs/, and no code.
// Document 01, "Running a tactic"; document 02, P1; the paper's Fig. 3 and sections 2.1 and 4.1.

#![tactic(auto)]
