#![tactic(auto)]

// The worked runs of document 01 that are proved: theory only.
