// A pool as an SMT-LIB script.
#![tactic(auto)]
