// What emitted program words hold, entry by entry: definitions in specs/, proofs in proofs/.
#![tactic(auto)]
