// Demand 3 over histories: definitions in specs/, theorems in proofs/, no code.

#![tactic(auto)]
