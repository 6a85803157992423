// The table's words as functions, and one step of it so seen: theory only.
#![tactic(auto)]
