// Lists that are made, or written, one after the other: specs/ has the definition, proofs/ the laws of a loop that writes them.
#![tactic(auto)]
