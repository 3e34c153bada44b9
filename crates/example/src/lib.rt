#![tactic(auto)]

// The printed example of 01, proved of the definitions. No code: the statement is in specs/, the proof in proofs/.
