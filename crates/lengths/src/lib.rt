// How long a log can be: no more operations end than were begun. No code, only what the log's room rests on.
#![tactic(auto)]
