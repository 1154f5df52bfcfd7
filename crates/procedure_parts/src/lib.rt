// A file within the shortening limits, opened into parts: only definitions and laws.
#![tactic(auto)]
