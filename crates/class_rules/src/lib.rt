#![tactic(auto)]

// The class report as definitions, with their laws: specs/ has all there is.
