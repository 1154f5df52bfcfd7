// Only definitions: paths over the blocks of a procedure, and the walk that marks what they reach.
#![tactic(auto)]
