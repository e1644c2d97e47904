// The symbols of a tree in the order in which they are written, and what reading them again gives. Definitions in specs/, proofs in proofs/.
#![tactic(auto)]
