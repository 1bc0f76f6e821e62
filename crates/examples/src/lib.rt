// Theorems alone: the marked examples of RULES.md, in a crate of their own because they take long to compute.
#![tactic(auto)]
