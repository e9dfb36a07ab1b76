#![tactic(auto)]

// What accepted operations that make and satisfy do to a session's memory: a function for each, by its name, and the parts that
// others fire events with. That the session is sound stays a clause: between two writes it is not.
mod delivering;
mod firing;
mod linking;
mod making;
mod satisfying;

pub use delivering::deliver;
pub use firing::{fire_one, set_open_links};
pub use linking::dependence;
pub use making::{block, counted, event, task, template};
pub use satisfying::satisfy;
