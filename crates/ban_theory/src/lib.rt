// What bans of three words have to do with copies of words: theorems on the definitions of the crate code alone, in specs/.

#![tactic(auto)]
