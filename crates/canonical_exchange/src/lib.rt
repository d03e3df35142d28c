// Exchanging two neighbouring instructions: specs/ has the definitions, proofs/ the theorem.
#![tactic(auto)]
