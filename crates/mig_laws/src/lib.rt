// Laws of majority networks. They are all in proofs/, and the crates above cite them from there.
#![tactic(auto)]
