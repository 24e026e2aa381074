// Packages worked out by hand from 01, an item to a line, and what a survey leaves of each: examples alone, no code.
#![tactic(auto)]
