#![tactic(auto)]

// A sheet run from a fresh session for its four counts, as a class report tells them.
ghost use Rattle.std.specs.Prelude.{◌≡◌, ◌≤◌, ◌<◌, length};
ghost use Rattle.session.specs.Table.{read, words};
ghost use Rattle.session.specs.Lent.{was, Becomes};
ghost use Rattle.session.specs.Fresh.{fresh_session};
ghost use Rattle.rules.specs.Formula.{Holds};
ghost use Rattle.rules.specs.Sound.{sound, kept};
ghost use Rattle.rules.specs.Step.{step};
ghost use Rattle.record.specs.RecordReading.{edition_of};
ghost use Rattle.sheet.specs.SheetPrinted.{print_sheet};
ghost use Rattle.sheet_counts.specs.Answers.{no_counts, counts_of};
ghost use Rattle.sheet_counts.specs.Telling.{told};
ghost use Rattle.sheet_counts.specs.CountingRun.{tally_of, Goes, counts_from, left_from};

use rules::Operation;
use session::{Field, Memory, WORDS};

// The code of the operation that starts a task.
const START: u64 = 11;

// Records (answer lines), those refused (line 0 too), accepted starts, dropped deliveries: of one sheet, or of a whole class.
#[derive(Clone, Copy, Debug, Default, PartialEq, Eq)]
pub struct Tally {
    pub records: u64,
    pub refused: u64,
    pub starts: u64,
    pub dropped: u64,
}

// An operation's answer: whether it was refused, and whether it was an accepted start.
#[derive(Clone, Copy)]
struct Told {
    refused: bool,
    start: bool,
}

// The empty tally.
pub fn empty() -> Tally
    ensures { result ≡ no_counts }
{
    Tally::default()
}

// Runs an operation on a sound session and tells its answer. Internal.
fn count_operation(memory: &mut Memory, op: Operation) -> Told
    requires { Holds (sound (read memory.old)) }
    ensures session { Becomes memory.old memory.new (step (was memory.old) op).leaves }
    ensures counts { result ≡ told (step (was memory.old) op).refused op.code }
{
    match engine::apply_sound(memory, op) {
        Ok(_) => Told {
            refused: false,
            start: op.code == START,
        },
        Err(_) => Told {
            refused: true,
            start: false,
        },
    }
}

// Runs the record at a place of a sheet of this edition on a kept session: the place of the next one and the answer, or nothing
// where it ended the sheet with a refusal. Internal.
fn count_record(edition: u64, sheet: &[u8], at: usize, memory: &mut Memory) -> Option<(usize, Told)>
    requires { Holds (kept (read memory.old)) × (at < length sheet.now) × (edition ≡ edition_of sheet.now) }
    ensures { Goes sheet.now at memory.old memory.new result }
{
    match record::read_record(edition, sheet, at) {
        Ok((operation, next)) => Some((next, count_operation(memory, operation))),
        Err(_) => None,
    }
}

// The counts, with the session's own of dropped deliveries. Internal.
fn with_dropped(memory: &Memory, records: u64, refused: u64, starts: u64) -> Tally
    ensures { result ≡ tally_of records refused starts (was memory.now) }
{
    Tally {
        records,
        refused,
        starts,
        dropped: session::get(memory, Field::Dropped, 0),
    }
}

// Runs the records from a place on, on a kept session, and counts. Internal.
fn count_records(sheet: &[u8], first: usize, memory: &mut Memory) -> Tally
    requires { Holds (kept (read memory.old)) }
    ensures counts { result ≡ counts_from sheet.now first (was memory.old) }
    ensures session { Becomes memory.old memory.new (left_from sheet.now first (was memory.old)) }
{
    let edition = record::edition_of(sheet);
    let mut at = first;
    let mut records: u64 = 0;
    let mut refused: u64 = 0;
    let mut starts: u64 = 0;
    // a while, since the record that was read tells the next place
    while at < sheet.len() {
        records += 1;
        let Some((next, answer)) = count_record(edition, sheet, at, memory) else {
            return with_dropped(memory, records, refused + 1, starts);
        };
        at = next;
        refused += u64::from(answer.refused);
        starts += u64::from(answer.start);
    }
    with_dropped(memory, records, refused, starts)
}

// Runs a sheet on a fresh session and counts.
fn count_on_fresh(sheet: &[u8], memory: &mut Memory) -> Tally
    requires { read memory.old ≡ fresh_session }
    ensures counts { result ≡ counts_of sheet.now }
    ensures session { Becomes memory.old memory.new (print_sheet sheet.now fresh_session).session }
{
    match record::read_head(sheet) {
        Ok(first) => count_records(sheet, first, memory),
        Err(_) => with_dropped(memory, 1, 1, 0),
    }
}

// The same in longer memory. Internal: callers have shown the length, and that the memory holds a fresh session.
pub fn count_fresh(sheet: &[u8], memory: &mut [u64]) -> Tally
    requires { (words ≤ length memory.old) × (read memory.old ≡ fresh_session) }
    ensures counts { result ≡ counts_of sheet.now }
    ensures session { Becomes memory.old memory.new (print_sheet sheet.now fresh_session).session }
{
    let Some(session) = memory.first_chunk_mut::<WORDS>() else {
        unreachable!()
    };
    count_on_fresh(sheet, session)
}

// Runs a sheet from a fresh session, which takes the place of the kept one in memory, and counts. Internal. It takes a slice, as docs/
// name it.
pub fn count_sheet(sheet: &[u8], memory: &mut [u64]) -> Tally
    requires { (words ≤ length memory.old) × Holds (kept (read memory.old)) }
    ensures counts { result ≡ counts_of sheet.now }
    ensures session { Becomes memory.old memory.new (print_sheet sheet.now fresh_session).session }
{
    let Some(session) = memory.first_chunk_mut::<WORDS>() else {
        unreachable!()
    };
    session::renew(session);
    count_on_fresh(sheet, session)
}
