// Closed fills are watertight: see specs/. There is no code here.
#![tactic(auto)]
