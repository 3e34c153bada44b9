#![tactic(auto)]

// The room in the mailbox. No code: the weights, the phases and the statement are in specs/, the proofs in proofs/.
