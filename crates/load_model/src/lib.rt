// Where the nodes of a load begin, as functions on lists, and what they mean: specs and laws alone.
#![tactic(auto)]
