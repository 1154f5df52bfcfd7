// Only theorems: what the tally is after a history of calls.
#![tactic(auto)]
