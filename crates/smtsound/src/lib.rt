// Laws of the grammar: what a run leaves is a list that passes, and it determines the run.
#![tactic(auto)]
