// That every contract determines what a call gives. No code.
#![tactic(auto)]
