// What the engine promises of proofs, derivations and texts, as theorems about the entries' definitions: statements in specs/, proofs in proofs/, and no code.
// Document 01, "A note for the people on the test bench": every entry states its outcome in full; and the three demands.

#![tactic(auto)]
