// The canonical pools of a block with two neighbours exchanged: proofs/ has the theorem.
#![tactic(auto)]
