// Demand 3 over scripts: specs/ has the statements, proofs/ the theorems.
#![tactic(auto)]
