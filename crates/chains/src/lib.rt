// Chains of nodes, linked by their next words: theory only.
#![tactic(auto)]
