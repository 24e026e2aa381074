// What each crate takes a spelling for, and that the kinds and names of the forms are told apart: definitions and proofs alone, no code.
#![tactic(auto)]
