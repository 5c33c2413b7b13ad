// The shop's own lists pass the check: see specs/ and proofs/. There is no code here.
#![tactic(auto)]
