#![tactic(auto)]

// A sheet, run on a session in lent memory: record after record, each with its answer line in lent memory.
// The sheet, the memory, the lines and the length used stay parameters: in a struct, each contract would have to say besides that its
// references are still the ones lent.
ghost use Rattle.std.specs.Prelude.{◌≡◌, true, ◌+◌, ◌≤◌, ◌<◌, ◌^◌, length};
ghost use Rattle.session.specs.Table.{Wrote, read};
ghost use Rattle.session.specs.Fresh.{fresh_session};
ghost use Rattle.rules.specs.Formula.{Holds, test};
ghost use Rattle.rules.specs.Sound.{sound, kept};
ghost use Rattle.rules.specs.declared.refusals.Refusal.TheVariants.{NoRoom};
ghost use Rattle.rules.specs.Step.{step};
ghost use Rattle.record.specs.RecordReading.{edition_of, place_told};
ghost use Rattle.sheet.specs.Run.{has_room, with_line, run_at};
ghost use Rattle.sheet.specs.Going.{lines_of, went, Goes, Ends, run_of};
ghost use Rattle.sheet.specs.WholeSheet.{Ran, start_at};
ghost use Rattle.sheet.specs.Closing.{Closes};
ghost use Rattle.sheet.specs.Told.{closed_told, ended_told};

mod counts;
mod parts;
mod settled;

pub use parts::{run_part, run_part_from};
use rules::{Operation, Refusal};
use session::{Field, Memory, WORDS};

// How many bytes must be free before a line is written.
pub const LINE_ROOM: usize = 32;

// How a run ended: the length of the lines, the place of the record that was not run or of the sheet's end, the number of the
// record begun last (0 for the sheet's first number), and at the sheet's end or by a refusal.
#[derive(Clone, Copy, Debug, PartialEq, Eq)]
pub struct Ended {
    pub used: usize,
    pub place: usize,
    pub number: u64,
    pub ending: Result<(), Refusal>,
}

// Where a sheet's lines go on: at a place of it, behind so many records (place 0 is its first number), or at the last line; or
// nothing is left.
#[derive(Clone, Copy, Debug, PartialEq, Eq)]
pub enum Next {
    At(usize, u64),
    LastLine,
    Nothing,
}

// A part of a sheet's lines: their length, and where to go on.
#[derive(Clone, Copy, Debug, PartialEq, Eq)]
pub struct Part {
    pub used: usize,
    pub next: Next,
}

// Whether a line may be written behind the lines already there.
fn has_room(lines: &[u8], used: usize) -> bool
    ensures { result ≡ test (has_room (lines_of lines.now used)) }
{
    LINE_ROOM <= lines.len().saturating_sub(used)
}

// Whether the session is sound; `sure` says that the caller knows it to be kept, so that it need not be looked at.
fn is_admitted(memory: &Memory, sure: bool) -> bool
    requires { sure ≡ true → Holds (kept (read memory.now)) }
    ensures { result ≡ test (sound (read memory.now)) }
{
    sure || sound::is_sound(memory)
}

// Writes a line, for which there is room. Internal: the numbers are small enough for 32 bytes.
fn put_answer(lines: &mut [u8], used: usize, a: u64, b: u64, c: u64) -> usize
    requires { (used + 32 ≤ length lines.old) × (b < 100) × (c < 10000) }
    ensures { lines_of lines.new result ≡ with_line (lines_of lines.old used) a b c }
{
    lines::put_line(lines, used, a, b, c)
}

// Runs an operation on a sound session and writes its line. Internal.
fn answer_record(
    memory: &mut Memory,
    lines: &mut [u8],
    used: usize,
    number: u64,
    op: Operation,
) -> usize
    requires { Holds (sound (read memory.old)) × (used + 32 ≤ length lines.old) }
    ensures session { Wrote memory.old memory.new (step (read memory.old) op).leaves }
    ensures line { lines_of lines.new result ≡ with_line (lines_of lines.old used) number
        (step (read memory.old) op).refused (step (read memory.old) op).made }
{
    match engine::apply_sound(memory, op) {
        Ok(made) => put_answer(lines, used, number, 0, made),
        Err(refusal) => put_answer(lines, used, number, u64::from(refusal), 0),
    }
}

// Runs the record at a place of a sheet of this edition, after k records, and answers the place of the next one, or the refusal
// that ends the sheet. Internal.
fn run_record(
    edition: u64,
    sheet: &[u8],
    at: usize,
    k: u64,
    memory: &mut Memory,
    lines: &mut [u8],
    used: &mut usize,
    sure: bool,
) -> Result<usize, Refusal>
    requires { (sure ≡ true → Holds (kept (read memory.old))) × (at < length sheet.now) × (k + 1 < 2 ^ 64)
        × (edition ≡ edition_of sheet.now) }
    ensures { Goes sheet.now at k memory.old memory.new lines.old lines.new used.old (went used.new result) }
{
    let number = k + 1;
    if !has_room(lines, *used) {
        return Err(Refusal::NoRoom);
    }
    if !is_admitted(memory, sure) {
        *used = put_answer(lines, *used, number, u64::from(Refusal::NotSound), 0);
        return Err(Refusal::NotSound);
    }
    match record::read_record(edition, sheet, at) {
        Ok((operation, next)) => {
            *used = answer_record(memory, lines, *used, number, operation);
            Ok(next)
        }
        Err(refusal) => {
            *used = put_answer(lines, *used, number, u64::from(refusal), 0);
            Err(refusal)
        }
    }
}

// Runs the records from a place on, before which there are so many. Internal.
fn run_records(
    sheet: &[u8],
    first: usize,
    done: u64,
    memory: &mut Memory,
    lines: &mut [u8],
    used: usize,
    sure: bool,
) -> Ended
    requires { (sure ≡ true → Holds (kept (read memory.old))) × (done ≤ first) }
    ensures { Ends memory.old memory.new lines.new (ended_told result)
        (run_of sheet.now first done memory.old lines.old used) }
{
    let edition = record::edition_of(sheet);
    let mut at = first;
    let mut behind = used;
    let mut k = done;
    // a while, since the record that was read tells the next place
    while at < sheet.len() {
        match run_record(edition, sheet, at, k, memory, lines, &mut behind, sure) {
            Ok(next) => {
                at = next;
                k += 1;
            }
            Err(refusal) => {
                return Ended {
                    used: behind,
                    place: at,
                    number: k + 1,
                    ending: Err(refusal),
                };
            }
        }
    }
    Ended {
        used: behind,
        place: at,
        number: k,
        ending: Ok(()),
    }
}

// Where the records begin from a place on: at place 0 the session and the sheet's first number are looked at. Internal.
fn start_at(sheet: &[u8], at: usize, memory: &Memory, sure: bool) -> Result<usize, Refusal>
    requires { sure ≡ true → Holds (kept (read memory.now)) }
    ensures { place_told result ≡ start_at sheet.now at (read memory.now) }
{
    if at != 0 {
        return Ok(at);
    }
    if !is_admitted(memory, sure) {
        return Err(Refusal::NotSound);
    }
    record::read_head(sheet)
}

// Runs a sheet from a place on, before which there are so many records. Internal; `sure` as in `is_admitted`.
fn run_at(
    sheet: &[u8],
    at: usize,
    done: u64,
    memory: &mut Memory,
    lines: &mut [u8],
    used: usize,
    sure: bool,
) -> Ended
    requires { Holds (has_room (lines_of lines.old used)) × (sure ≡ true → Holds (kept (read memory.old))) × (done ≤ at) }
    ensures { Ends memory.old memory.new lines.new (ended_told result)
        (run_at sheet.now at done (read memory.old) (lines_of lines.old used)) }
{
    match start_at(sheet, at, memory, sure) {
        Ok(first) => run_records(sheet, first, done, memory, lines, used, sure),
        Err(refusal) => Ended {
            used: put_answer(lines, used, 0, u64::from(refusal), 0),
            place: 0,
            number: 0,
            ending: Err(refusal),
        },
    }
}

// Whether lent memory holds a session that every operation keeps: sound, and no satisfied slot has a link still to come.
fn is_kept(memory: &Memory) -> bool
    ensures { result ≡ test (kept (read memory.now)) }
{
    sound::is_sound(memory) && settled::is_settled(memory)
}

// A run under check 1: nothing was run.
fn not_run(used: usize) -> Ended
    ensures { result ≡ record { used = used; place = 0; number = 0; ending = Err NoRoom } }
{
    Ended {
        used,
        place: 0,
        number: 0,
        ending: Err(Refusal::NoRoom),
    }
}

// Runs a sheet on a session in lent memory, with its lines behind those already in lent memory. A kept
// session is looked at once; any other at each record.
pub fn run(sheet: &[u8], memory: &mut [u64], lines: &mut [u8], used: usize) -> Ended
    ensures { Ran sheet.now memory.old memory.new lines.old lines.new used (ended_told result)
        (read memory.old) }
{
    let Some(session) = memory.first_chunk_mut::<WORDS>() else {
        return not_run(used);
    };
    if has_room(lines, used) {
        let sure = is_kept(session);
        run_at(sheet, 0, 0, session, lines, used, sure)
    } else {
        not_run(used)
    }
}

// Runs a sheet from a fresh session, which is written into lent memory after check 1. Every session from there on is kept, so
// that none is looked at again.
pub fn run_fresh(sheet: &[u8], memory: &mut [u64], lines: &mut [u8], used: usize) -> Ended
    ensures { Ran sheet.now memory.old memory.new lines.old lines.new used (ended_told result) fresh_session }
{
    if !has_room(lines, used) {
        return not_run(used);
    }
    let Some(session) = memory.first_chunk_mut::<WORDS>() else {
        return not_run(used);
    };
    session::put_fresh(session);
    run_at(sheet, 0, 0, session, lines, used, true)
}

// Writes the last line behind the lines already there, and answers their length. Under check 1 (no room for a line, or memory too
// short for a session) nothing is written.
pub fn put_last_line(memory: &[u64], lines: &mut [u8], used: usize) -> Result<usize, Refusal>
    ensures { Closes memory.now lines.old lines.new used (closed_told used result) }
{
    match memory.first_chunk::<WORDS>() {
        Some(first) if has_room(lines, used) => {
            let tasks = counts::live_tasks(first);
            let links = counts::undelivered_links(first);
            let dropped = session::get(first, Field::Dropped, 0);
            Ok(lines::put_line(lines, used, tasks, links, dropped))
        }
        _ => Err(Refusal::NoRoom),
    }
}
