#![tactic(auto)]

// The theorem on deadlocks. No code: the machine and the statement are in specs/, the proofs in proofs/.
