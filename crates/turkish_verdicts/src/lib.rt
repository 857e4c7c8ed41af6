// What the definitions say of the built-in code, and so what the verdict on it answers: theorems alone, in specs/.

#![tactic(auto)]
