#![tactic(auto)]

// The class report of a file in memory, part by part.
mod parts;
mod passing;

use class::Report;
pub use parts::report_part;

// A part of a report: the length of the lines, and the place and the report where to go on.
#[derive(Clone, Copy, Debug, PartialEq, Eq)]
pub struct Part {
    pub used: usize,
    pub place: usize,
    pub report: Report,
}
