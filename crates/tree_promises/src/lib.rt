// What the strict reading promises: theorems alone, no code.
#![tactic(auto)]
