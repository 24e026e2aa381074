// What damage to one line of a package leaves untouched: definitions and proofs alone, no code.
#![tactic(auto)]
