// Whether a lane saturates: definitions in specs/, theorems in proofs/.
#![tactic(auto)]
