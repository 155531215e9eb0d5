// The calls as definitions: specs/ says what they are, proofs/ what holds of them.
#![tactic(auto)]
