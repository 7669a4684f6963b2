// No code: what the archive reader passes at once is defined in specs/, and that it is elements of the reader is shown in proofs/.
#![tactic(auto)]
