// What the engine promises of runs, halted runs and searches, as theorems about the entries' definitions: statements in specs/, proofs in proofs/, and no code.
// Document 01, "Running a tactic", and demand 2; document 02, P1, P13 and P14.

#![tactic(auto)]
