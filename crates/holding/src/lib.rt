#![tactic(auto)]

// What accepted operations that hold blocks and let go of them do to a session's memory: a function for each, by its name, and
// the parts that others let go with. That the session is sound stays a clause: between two writes it is not.
mod granting;
mod letting;

pub use granting::{grant, start};
pub use letting::{let_go_all, let_go_block, release};
