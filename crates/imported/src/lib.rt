// From path data to lines: what was imported is watertight: see specs/. No code.
#![tactic(auto)]
