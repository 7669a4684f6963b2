// No code: the rules that proofs by hand share are in proofs/.
#![tactic(auto)]
