// What the waiting count promises a reader: dequeues on the table itself return as many nodes. Theory only.
#![tactic(auto)]
