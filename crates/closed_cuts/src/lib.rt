// A closed outline is a closed cut: see specs/ and proofs/. No code.
#![tactic(auto)]
