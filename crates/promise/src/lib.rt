// Only a theorem: demand 3, for every tidy file.
#![tactic(auto)]
