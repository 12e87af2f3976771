// Runs of edits. Definitions and laws only so far.

#![tactic(auto)]
