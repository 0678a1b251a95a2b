// No state of the grammar is a dead end, and no choice begins another one: no function, only theorems in specs/.
#![tactic(auto)]
