// What ban lists mean, proved from the definitions: definitions and theorems alone, in specs/.

#![tactic(auto)]
