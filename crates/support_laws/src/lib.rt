// Laws of the support of a table. They are all in proofs/, and the crates above cite them from there.
#![tactic(auto)]
