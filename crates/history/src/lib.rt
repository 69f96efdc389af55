// What the history of a device says of each network, and that the record holds it: no code.
#![tactic(auto)]
