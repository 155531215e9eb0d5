// The system of words, grants and a count, and every entry as a call on it: definitions and specimens.
#![tactic(auto)]
