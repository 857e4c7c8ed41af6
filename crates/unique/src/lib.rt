// Each public contract leaves one answer: theorems alone, in specs/. Nothing is built on them.

#![tactic(auto)]
