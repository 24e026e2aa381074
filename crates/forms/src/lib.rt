// The forms of the strict reading as a grammar, and what a file is: definitions and proofs alone, no code.
#![tactic(auto)]
