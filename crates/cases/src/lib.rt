#![tactic(auto)]

// Computed cases of the rules are in specs/; there is no code.
pub const CASES: u64 = 1;
