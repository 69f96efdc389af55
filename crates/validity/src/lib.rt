// A valid record stays valid, a refusal changes and tells nothing, and what a card, a power cycle and a reject leave is written out: no code.
#![tactic(auto)]
