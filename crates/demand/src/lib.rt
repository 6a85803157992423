// Demand 3 over the definitions: what a history is, what it promises of each queue, and why. No code.
#![tactic(auto)]
