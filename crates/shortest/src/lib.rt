// No code: what the writer is to give is in specs/, and that nothing shorter is accepted in proofs/.
#![tactic(auto)]
