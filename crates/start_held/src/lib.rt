// The memories that load leaves hold the start of the program: statement in specs/, proofs in proofs/.
#![tactic(auto)]
