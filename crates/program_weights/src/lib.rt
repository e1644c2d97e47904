// The number of nodes of a resolved tree, which falls as code goes into it: definitions only.
#![tactic(auto)]
