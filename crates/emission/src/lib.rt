// Program words and literal bytes as load writes them: definitions in specs/, what they hold in proofs/.
#![tactic(auto)]
