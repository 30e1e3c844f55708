// Laws of clauses and of the search for a model. They are all in proofs/, and the crates above cite them from there.
#![tactic(auto)]
