// The runner, the Arm run, the terms and the evaluator agree: specs/ states the theorems, proofs/ has their proofs.
#![tactic(auto)]
