// The theory of reading by a table that looks one element ahead: definitions and proofs alone, no code.
#![tactic(auto)]
