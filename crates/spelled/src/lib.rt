// The number of a kind by its spelling: a definition alone, no code.
#![tactic(auto)]
