// Changes of words as functions on lists: specs/ follows the code of crates renumber and store, proofs/ says what it does.
#![tactic(auto)]
