// Two firms on one state, said over the machine of one firm. There is no code here.
#![tactic(auto)]
