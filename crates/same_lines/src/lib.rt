// A moved sheet gives the same lines: see specs/. There is no code here.
#![tactic(auto)]
