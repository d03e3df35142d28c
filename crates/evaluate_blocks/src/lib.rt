// Demand 3 for the evaluator: specs/ states the theorem, proofs/ has its proof.
#![tactic(auto)]
