// Two routines by scripts: specs/ has the statements, proofs/ the theorems.
#![tactic(auto)]
