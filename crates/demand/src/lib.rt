// What holds of every run of calls on a unit that was armed. There is no code here: see specs/ for the statement and proofs/ for the theorems.
#![tactic(auto)]
