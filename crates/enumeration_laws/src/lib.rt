// Laws of the enumeration of canonical networks. The definitions are in specs/, and the laws in proofs/.
#![tactic(auto)]
