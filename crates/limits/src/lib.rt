// How long an operation can take: its own steps, over histories from a fresh table, and the moves of a whole history. Theory only.
#![tactic(auto)]
