#![tactic(auto)]

// What every rule keeps: well-formed records, and well-formed entries for what is sent. No code.
