// No code: the three demands as theorems about what the entry points promise. The statements are in specs/, the proofs in proofs/.
#![tactic(auto)]
