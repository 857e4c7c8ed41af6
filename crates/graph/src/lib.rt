// Finite graphs whose nodes carry symbols: definitions and laws alone, in specs/. The searches and the pairs of places meet here.

#![tactic(auto)]
