// No code: the definitions of the rules are in specs/, and the proof that they agree in proofs/.
#![tactic(auto)]
