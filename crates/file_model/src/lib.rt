// The reading of a file as functions on lists: definitions and laws, no code.
#![tactic(auto)]
