// Only definitions: document 01's machine, and demand 3 about two of its runs.
#![tactic(auto)]
