// Laws of the clauses of a question.
#![tactic(auto)]
