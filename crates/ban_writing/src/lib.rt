// The ban list that is written for bans, in specs/: it is not refused 16, gives the bans back, and is short. There is no code.

#![tactic(auto)]
