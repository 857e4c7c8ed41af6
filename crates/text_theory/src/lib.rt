// What the definition of splitting a text implies: theorems alone, in specs/.

#![tactic(auto)]
