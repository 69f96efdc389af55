// Definitions over arrays of numbers, and their laws: no code.
#![tactic(auto)]
