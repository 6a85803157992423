// Who is stuck: on every table reached from fresh the waiting count is answered, and what it is. Theory only.
#![tactic(auto)]
