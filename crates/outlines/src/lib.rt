// Theorems alone: what commands of `pattern` draw is read back by the scene's own definitions, and is watertight.
#![tactic(auto)]
