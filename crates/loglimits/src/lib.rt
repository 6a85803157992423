// No line of a log shows more steps than the bound. Theory only.
#![tactic(auto)]
