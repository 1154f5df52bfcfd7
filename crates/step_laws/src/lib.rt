// Only laws: what the steps leave is well formed and within the sizes of document 01.
#![tactic(auto)]
