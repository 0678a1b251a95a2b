// Every text of the subset is a run of the grammar: no function, only theorems in specs/.
#![tactic(auto)]
