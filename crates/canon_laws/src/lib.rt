// The canonical form is accepted with its table, and the tables of accepted files are the valid ones.
#![tactic(auto)]
