// Laws of readers that say where a text stops being one: no function, only theorems in specs/.
#![tactic(auto)]
