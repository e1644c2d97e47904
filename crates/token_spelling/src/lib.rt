// Tokens that are spelled are read again, by the constant classes and by any that agree with them where they must. Definitions in specs/, proofs in proofs/.
#![tactic(auto)]
