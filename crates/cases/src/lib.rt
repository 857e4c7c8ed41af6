// The starred codes of 01 and codes of request 1, proved from the definitions by one statement: definitions and theorems alone, in specs/.

#![tactic(auto)]
