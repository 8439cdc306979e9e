// Free choice with a way back, document 02, P13: definitions of what a search finds in specs/, theorems about them in proofs/, and no code.

#![tactic(auto)]
