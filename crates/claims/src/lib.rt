// What a lookup by name finds in the tables of a surveyed text: definitions and proofs alone, no code.
#![tactic(auto)]
