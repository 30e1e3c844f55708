// Laws of the symmetry clauses, which hold of canonical networks with their neighbours in order.
#![tactic(auto)]
