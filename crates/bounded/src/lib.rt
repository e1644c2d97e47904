// The bounded machine: the frame machine over any store with room for so many frames and made texts. Definitions are in specs/, the simulation in proofs/.
#![tactic(auto)]
