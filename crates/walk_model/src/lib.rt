// The soundness walk as a function on lists: specs/ follows the code of crate walk, proofs/ says what it decides.
#![tactic(auto)]
