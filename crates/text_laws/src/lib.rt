#![tactic(auto)]

// The theorems about sheets as text are in specs/; there is no code.
pub const TEXT_LAWS: u64 = 1;
