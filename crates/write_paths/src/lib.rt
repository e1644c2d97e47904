// A tree with each path as it is written again: the same program, in fewer symbols. Definitions in specs/, proofs in proofs/.
#![tactic(auto)]
