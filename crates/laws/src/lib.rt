// Laws of binary32 that several crates cite: see specs/. There is no code here.
#![tactic(auto)]
