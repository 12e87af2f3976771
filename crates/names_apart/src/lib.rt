// The names of a line's ends changed no other part of an answer. Definitions and laws only.

#![tactic(auto)]
