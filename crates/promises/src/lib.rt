// What the contracts of two operations say together: theorems alone, in specs/. Nothing is built on them.

#![tactic(auto)]
