// Bounds on the clauses, the literals and the variables of a question and exactly so many gates.
#![tactic(auto)]
