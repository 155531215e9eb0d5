// Small definitions and laws on lists and tests that every other crate may use. No code.
#![tactic(auto)]
