#![tactic(auto)]

// Definitions on numbers and lists, and their laws. No code: the definitions are in specs/, the laws in proofs/.
