// The numbers at the edges and the incident of 01, from bytes to the words that a survey leaves: examples alone, no code.
#![tactic(auto)]
