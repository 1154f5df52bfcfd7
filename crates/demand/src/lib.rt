// Only definitions and a theorem: demand 3, proved for every tidy procedure.
#![tactic(auto)]
