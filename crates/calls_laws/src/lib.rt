// Laws of the calls (crate calls): proofs/ holds them.
#![tactic(auto)]
