// Laws of classes of tables.
#![tactic(auto)]
