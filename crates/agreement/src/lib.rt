#![tactic(auto)]

// The rules of the abstract machine are those of the records in the code. No code: how records are read is in specs/, the proofs in proofs/.
