// Lists of nodes: how often a node stands in one, and which list is a beginning of which. No code, only what the theory cites.
#![tactic(auto)]
