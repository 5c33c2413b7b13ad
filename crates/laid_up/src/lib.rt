// Theorems alone: a scene that passes the profile, and whose call is accepted, is watertight subpath by subpath.
#![tactic(auto)]
