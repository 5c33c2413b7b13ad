// The examples measured on the source, from the definitions: see specs/. There is no code here.
#![tactic(auto)]
