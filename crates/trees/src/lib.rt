// What program words hold as trees: definitions and laws only.
#![tactic(auto)]
