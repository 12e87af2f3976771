// What a function for other languages tells of an answer: definitions, and their laws.

#![tactic(auto)]
