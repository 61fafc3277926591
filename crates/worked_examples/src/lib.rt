// The worked examples stand in specs/, and the statement that all of them hold in proofs/; there is no code.
#![tactic(auto)]
