// The L-Tree of document 01 as definitions: specs/ says what it is; crate tree_laws proves what holds of it.
#![tactic(auto)]
