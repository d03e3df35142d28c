// What an accepted refutation says of the Arm runs of two blocks: proofs/ has the theorems.
#![tactic(auto)]
