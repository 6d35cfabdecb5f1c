// Theorems alone: what becomes of the first plan when the net changes.
#![tactic(auto)]
