// The window of promises: what the owner's demands come to, demand by demand; theorems alone, no code.
#![tactic(auto)]
