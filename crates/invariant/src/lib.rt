// Why the step table keeps each queue's nodes: the invariant of one queue, and that each step and begin keeps it. Theory only.
#![tactic(auto)]
