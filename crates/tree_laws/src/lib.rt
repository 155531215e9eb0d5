// Laws of the L-Tree (crate tree), for any widths: proofs/ holds them.
#![tactic(auto)]
