// A light joins the line that its group has. Definitions and laws only.

#![tactic(auto)]
