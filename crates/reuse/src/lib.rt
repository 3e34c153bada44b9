#![tactic(auto)]

// What is left of a session whose work is over. No code: the statement is in specs/, the proofs in proofs/.
