// The order and the words of a canonical pool: specs/ has the definitions, proofs/ the theorems.
#![tactic(auto)]
