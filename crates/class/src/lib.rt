#![tactic(auto)]

// The class report step by step: a line for each learner's sheet that counts, and the sums. A report asks for some bytes of the file
// and is handed them, so that a file of any length is reported from memory for two sheets.
mod halves;
mod printing;
mod steps;

pub use halves::free_half;
use number::Reader;
use sheet_counts::Tally;
pub use steps::{MOST, asks, begin, go_on, is_over, supersede, take, with_entry};

// How many bytes must be free before a line is written.
pub const ROOM: usize = 128;

// The memory of a line.
type Line = [u8; ROOM];

// The longest sheet.
pub const MOST_BYTES: usize = 32768;

// The memory for two sheets.
pub const TWO_SHEETS: usize = 65536;

// What a report prints or reads next: its head, the number of sheets, an entry's learner, turn and length, its sheet, the line of
// the pending sheet, the last line; or nothing. They stand in the order of their codes (`class_words`).
#[derive(Clone, Copy, Debug, PartialEq, Eq)]
pub enum Stage {
    Head,
    Count,
    Learner,
    Turn,
    Length,
    Sheet,
    Last,
    Nothing,
    Line,
}

// A sheet that was turned in: whose it is, and where its bytes lie.
#[derive(Clone, Copy, Debug, PartialEq, Eq)]
pub struct Turned {
    pub learner: u64,
    pub turn: u64,
    pub place: usize,
    pub length: u64,
}

// Where a report stands: what comes next, the number that is being read, how many entries are left with this one, what was read
// of this one, the number of a stop or 0, the pending sheet, which counts for its learner unless a later entry supersedes it, and
// the tally of those printed. The stop is a number and no refusal: any may stand in the words of a report that C hands back
// (`class_words`: `Reports`).
#[derive(Clone, Copy, Debug, PartialEq, Eq)]
pub struct Report {
    pub stage: Stage,
    pub number: Reader,
    pub left: u64,
    pub learner: u64,
    pub turn: u64,
    pub length: u64,
    pub stop: u64,
    pub pending: Option<Turned>,
    pub tally: Tally,
}

// What a step leaves: where the report stands then, and the length of what it printed.
#[derive(Clone, Copy, Debug, PartialEq, Eq)]
pub struct Step {
    pub report: Report,
    pub used: usize,
}
