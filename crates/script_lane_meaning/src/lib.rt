// Definitions and theorems only: scripts by lanes.
#![tactic(auto)]
