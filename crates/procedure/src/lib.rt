// Only definitions: document 01's procedure, as the steps and the machine see it.
#![tactic(auto)]
