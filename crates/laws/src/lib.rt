// Laws of truths and lists that the proofs of several crates cite: no definitions, no code.
#![tactic(auto)]
