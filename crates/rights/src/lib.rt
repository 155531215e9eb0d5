// What is promised of rights for contractors, and its proofs.
#![tactic(auto)]
