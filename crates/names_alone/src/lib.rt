// A name of a text, taken out of it, is still that name: definitions and proofs alone, no code.
#![tactic(auto)]
