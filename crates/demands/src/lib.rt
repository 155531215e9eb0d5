// The three demands over words, in document 01's own words: statements and their proofs, no code.
#![tactic(auto)]
