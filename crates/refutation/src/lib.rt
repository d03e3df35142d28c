// Refutations of a literal: definitions and theorems only.
#![tactic(auto)]
