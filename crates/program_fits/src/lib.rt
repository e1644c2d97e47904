// What the bounded machine asks of a program, from well-formed program words: definitions and laws only.
#![tactic(auto)]
