// Only laws: of Booleans, numbers and lists, for any crate.
#![tactic(auto)]
