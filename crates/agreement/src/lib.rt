// What joins the parts: no function of its own, only theorems in specs/.
#![tactic(auto)]
