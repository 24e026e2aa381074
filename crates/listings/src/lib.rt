// What the programs print of a text, from its bytes to the bytes of its listing: definitions and theorems alone, no code.
#![tactic(auto)]
