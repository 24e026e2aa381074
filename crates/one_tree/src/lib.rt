// The forms' table determines the tree: definitions and proofs alone, no code.
#![tactic(auto)]
