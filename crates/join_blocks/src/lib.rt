// Demand 3 over a joined pool: proofs/ has the theorem.
#![tactic(auto)]
