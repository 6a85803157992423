// Every schedule of a few operations: listed once, steps before begins, told by its text, and held to demand 3. Theory only.
#![tactic(auto)]
