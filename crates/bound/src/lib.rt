#![tactic(auto)]

// The bound on deliveries. No code: the potential and the statement are in specs/, the proofs in proofs/.
