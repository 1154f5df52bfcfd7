// Only laws: procedures within the limits, written and read back.
#![tactic(auto)]
