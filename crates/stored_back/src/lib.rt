// What is stored of a survey is a stored table, and reading it gives the survey's items back: definitions and proofs alone, no code.
#![tactic(auto)]
