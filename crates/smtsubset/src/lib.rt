// The runs of the grammar are the texts of the subset: laws alone.
#![tactic(auto)]
