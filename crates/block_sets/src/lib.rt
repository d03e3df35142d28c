// Which registers matter to a register after a block: proofs/ has the theorems, over what `block` answers.
#![tactic(auto)]
