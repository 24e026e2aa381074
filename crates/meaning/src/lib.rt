// What the survey of a package means, piece by piece: definitions and proofs alone, no code.
#![tactic(auto)]
