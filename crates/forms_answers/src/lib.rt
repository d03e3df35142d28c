// What the line program answers to records that are written in columns: specs/ has the statements, proofs/ the proofs.
#![tactic(auto)]
