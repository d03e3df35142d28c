// The theorems on the value of a term: proofs/ has them, over the definitions of the crates below.
#![tactic(auto)]
