#![tactic(auto)]

// The clause on deadlocks, for every list of calls on the bytes. No code: the statement is in specs/, the proof in proofs/.
