// The four calls as one machine over lent memories, and what run and collect are for it: definitions and laws only.
#![tactic(auto)]
