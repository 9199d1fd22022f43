// The bench table, and the libraries that the contracts shut out. There is no code here: see specs/ and proofs/.
#![tactic(auto)]
