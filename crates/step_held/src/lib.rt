// What the words after one step hold, from the definitions alone: laws only.
#![tactic(auto)]
