#![tactic(auto)]

// The table of document 01's edges is in specs/; there is no code.
pub const EDGES: u64 = 10;
