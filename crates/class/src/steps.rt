// The steps of a report. The memories are parameters of each, and so is the place in `room` with the fact that it lies there: a struct of
// borrowed memories would be made for each call and taken apart in it, which is no plainer.
ghost use Rattle.std.specs.Prelude.{◌≤◌, ◌-◌, ◌≡◌, Some, length, take, drop};
ghost use Rattle.session.specs.Lent.{was};
ghost use Rattle.session.specs.Table.{read};
ghost use Rattle.rules.specs.Formula.{choose, Holds, Formula.◌≼◌};
ghost use Rattle.rules.specs.Sound.{kept};
ghost use Rattle.rules.specs.Refusals.{number};
ghost use Rattle.class_rules.specs.Report.{most_bytes, head, last_line};
ghost use Rattle.class.specs.Steps.{begun, is_over, asks, fed_to, turned, stopping, entry_to, entry_or_line, going, valued};
ghost use Rattle.class.specs.Steps.{byte, turned_in, closing, closed, holding, superseded, after, taken, sheet_taken};
ghost use Rattle.class.specs.Stepped.{Lent, Told, Moved, Ran, Took};

use crate::{Line, MOST_BYTES, ROOM, Report, Stage, Step, Turned, printing};
use number::{Fed, LIMIT_32, Reader};
use rules::Refusal;
use session::{Memory, WORDS};
use sheet_counts::Tally;

// The longest sheet, as lengths are read.
pub const MOST: u64 = MOST_BYTES as u64;

// A report that has printed and read nothing.
pub fn begin() -> Report
    ensures { result ≡ begun }
{
    Report {
        stage: Stage::Head,
        number: number::start(),
        left: 0,
        learner: 0,
        turn: 0,
        length: 0,
        stop: 0,
        pending: None,
        tally: sheet_counts::empty(),
    }
}

// How many bytes of the file a report asks for.
pub fn asks(report: Report) -> usize
    ensures told { result ≡ asks report }
    ensures most { result ≤ 32768 }
{
    match report.stage {
        Stage::Count | Stage::Learner | Stage::Turn | Stage::Length => 1,
        Stage::Sheet => asks_sheet(report.length),
        Stage::Head | Stage::Line | Stage::Last | Stage::Nothing => 0,
    }
}

// Whether nothing is left to print.
pub fn is_over(report: Report) -> bool
    ensures { result ≡ is_over report.stage }
{
    matches!(report.stage, Stage::Nothing)
}

fn asks_sheet(length: u64) -> usize
    ensures told { result ≡ choose (length ≼ most_bytes) length 0 }
    ensures most { result ≤ 32768 }
{
    if MOST < length {
        return 0;
    }
    length as usize
}

// A report at a stage, with so much of a number read.
fn at_stage(report: Report, stage: Stage, number: Reader) -> Report
    ensures { result ≡ fed_to report stage number }
{
    Report {
        stage,
        number,
        ..report
    }
}

// A report that stops: the line of the pending sheet comes first.
fn stopped(report: Report, refusal: Refusal) -> Report
    ensures { result ≡ stopping report (number refusal) }
{
    Report {
        stage: Stage::Line,
        number: number::start(),
        stop: u64::from(refusal),
        ..report
    }
}

// A report with so many entries left, a pending sheet and a tally; of the next entry nothing is read.
pub fn go_on(left: u64, pending: Option<Turned>, tally: Tally) -> Report
    ensures { result ≡ going left pending tally }
{
    Report {
        stage: entry_or_line(left),
        left,
        pending,
        tally,
        ..begin()
    }
}

fn entry_or_line(left: u64) -> Stage
    ensures { result ≡ entry_or_line left }
{
    if left == 0 {
        return Stage::Line;
    }
    Stage::Learner
}

// A report at a stage, with what was read of an entry.
pub fn with_entry(report: Report, stage: Stage, learner: u64, turn: u64, length: u64) -> Report
    ensures { result ≡ entry_to report stage learner turn length }
{
    Report {
        stage,
        number: number::start(),
        learner,
        turn,
        length,
        ..report
    }
}

// The report after a number that was read whole.
fn with_value(report: Report, v: u64) -> Report
    ensures { result ≡ valued report report.stage v }
{
    match report.stage {
        Stage::Count => go_on(v, report.pending, report.tally),
        Stage::Learner => with_entry(report, Stage::Turn, v, report.turn, report.length),
        Stage::Turn => with_entry(report, Stage::Length, report.learner, v, report.length),
        Stage::Length => with_entry(report, Stage::Sheet, report.learner, report.turn, v),
        _ => report,
    }
}

// Takes a byte of a number; without one the number is cut short.
fn take_byte(report: Report, bytes: &[u8]) -> Report
    ensures { result ≡ byte report report.stage bytes.now }
{
    let [first, ..] = bytes else {
        return stopped(report, Refusal::CutShort);
    };
    match number::feed(report.number, *first, LIMIT_32) {
        Fed::More(next) => at_stage(report, report.stage, next),
        Fed::Whole(v) => with_value(report, v),
        Fed::Bad => stopped(report, Refusal::BadNumber),
    }
}

// A step that prints nothing.
fn silent(report: Report) -> Step
    ensures { (result.report ≡ report) × (result.used ≡ 0) }
{
    Step { report, used: 0 }
}

// What the run of a pending sheet leaves: the tally, and the length of its line.
#[derive(Clone, Copy, Debug, PartialEq, Eq)]
pub struct Shown {
    pub tally: Tally,
    pub used: usize,
}

// Runs a pending sheet with the tally lent to it, and prints its line.
fn run_sheet(
    sheet: Turned,
    room: &[u8],
    tally: Tally,
    memory: &mut Memory,
    line: &mut Line,
) -> Shown
    requires { Holds (kept (read memory.old)) }
    ensures { Ran room.now sheet tally memory.old memory.new line.old line.new result }
{
    let bytes = turns::sheet_in(room, sheet.place, sheet.length);
    let ran = tally::run_with(bytes, memory, tally);
    let counts = ran.counts;
    let raised = ran.tally;
    let used = printing::write_entry(sheet.learner, sheet.turn, counts, line);
    Shown {
        tally: raised,
        used,
    }
}

// The report without a pending sheet, before its last line.
fn close(report: Report, tally: Tally) -> Report
    ensures { result ≡ closing report tally }
{
    Report {
        stage: Stage::Last,
        number: number::start(),
        pending: None,
        tally,
        ..report
    }
}

// Prints the line of the pending sheet, if there is one.
fn print_pending(report: Report, room: &[u8], memory: &mut Memory, line: &mut Line) -> Step
    requires { Holds (kept (read memory.old)) }
    ensures { Moved memory.old memory.new line.old line.new result
        (closed room.now report (was memory.old) report.pending) }
{
    match report.pending {
        None => silent(close(report, report.tally)),
        Some(sheet) => {
            let shown = run_sheet(sheet, room, report.tally, memory, line);
            Step {
                report: close(report, shown.tally),
                used: shown.used,
            }
        }
    }
}

// This entry's sheet, which lies at a place.
fn turned_in(report: Report, place: usize) -> Turned
    ensures { result ≡ turned_in report place }
{
    Turned {
        learner: report.learner,
        turn: report.turn,
        place,
        length: report.length,
    }
}

// The report with this entry's sheet pending.
fn hold(report: Report, place: usize, tally: Tally) -> Report
    ensures { result ≡ holding report place tally }
{
    go_on(
        report.left.saturating_sub(1),
        Some(turned_in(report, place)),
        tally,
    )
}

// The one that supersedes, of the pending sheet and a later entry's. Internal: the later one's place lies in the memory.
pub fn supersede(room: &[u8], sheet: Turned, later: Turned) -> Turned
    requires { later.place ≤ length room.now }
    ensures { result ≡ superseded room.now sheet later }
{
    let place = turns::superseding_place(room, sheet.place, sheet.turn, later.place, later.turn);
    if sheet.turn <= later.turn {
        return Turned { place, ..later };
    }
    Turned { place, ..sheet }
}

// The report with the one that supersedes pending.
fn hold_later(report: Report, room: &[u8], place: usize, sheet: Turned) -> Report
    requires { place ≤ length room.now }
    ensures { result ≡ going (report.left - 1) (Some (superseded room.now sheet (turned_in report place))) report.tally }
{
    let later = supersede(room, sheet, turned_in(report, place));
    go_on(report.left.saturating_sub(1), Some(later), report.tally)
}

// Takes an entry's sheet where somebody is pending.
fn take_after(
    report: Report,
    room: &[u8],
    place: usize,
    sheet: Turned,
    memory: &mut Memory,
    line: &mut Line,
) -> Step
    requires kept { Holds (kept (read memory.old)) }
    requires place_in_bounds { place ≤ length room.now }
    ensures { Moved memory.old memory.new line.old line.new result
        (after room.now report (was memory.old) place sheet) }
{
    if report.learner < sheet.learner {
        return silent(stopped(report, Refusal::LowerLearner));
    }
    if report.learner == sheet.learner {
        return silent(hold_later(report, room, place, sheet));
    }
    let shown = run_sheet(sheet, room, report.tally, memory, line);
    Step {
        report: hold(report, place, shown.tally),
        used: shown.used,
    }
}

// Takes an entry's sheet that is all there.
fn take_whole(
    report: Report,
    room: &[u8],
    place: usize,
    memory: &mut Memory,
    line: &mut Line,
) -> Step
    requires kept { Holds (kept (read memory.old)) }
    requires place_in_bounds { place ≤ length room.now }
    ensures { Moved memory.old memory.new line.old line.new result
        (taken room.now report (was memory.old) place report.pending) }
{
    match report.pending {
        None => silent(hold(report, place, report.tally)),
        Some(sheet) => take_after(report, room, place, sheet, memory, line),
    }
}

// Takes a sheet if all of it was handed.
fn take_sheet(
    report: Report,
    room: &[u8],
    place: usize,
    end: usize,
    memory: &mut Memory,
    line: &mut Line,
) -> Step
    requires kept { Holds (kept (read memory.old)) }
    requires place_le_end { (place ≤ end) × (end ≤ length room.now) }
    ensures { Moved memory.old memory.new line.old line.new result
        (sheet_taken room.now report (was memory.old) place (take (end - place) (drop place room.now))) }
{
    if MOST < report.length {
        return silent(stopped(report, Refusal::TooLong));
    }
    if end - place < report.length as usize {
        return silent(stopped(report, Refusal::TooLong));
    }
    take_whole(report, room, place, memory, line)
}

// Prints the head.
fn print_head(report: Report, line: &mut Line) -> Step
    ensures { Told line.old line.new result (turned report Stage.Count) head }
{
    let used = printing::write_head(line);
    Step {
        report: at_stage(report, Stage::Count, number::start()),
        used,
    }
}

// Prints the last line: the sums, or a stop.
fn print_last(report: Report, line: &mut Line) -> Step
    ensures { Told line.old line.new result (turned report Stage.Nothing) (last_line report.tally report.stop) }
{
    let used = printing::write_last(report.tally, report.stop, line);
    Step {
        report: at_stage(report, Stage::Nothing, number::start()),
        used,
    }
}

// A step, with memory for a line.
fn take_step(
    report: Report,
    room: &[u8],
    place: usize,
    end: usize,
    memory: &mut Memory,
    line: &mut Line,
) -> Step
    requires kept { Holds (kept (read memory.old)) }
    requires place_le_end { (place ≤ end) × (end ≤ length room.now) }
    ensures { Took report room.now place (take (end - place) (drop place room.now)) memory.old memory.new
        line.old line.new result }
{
    match report.stage {
        Stage::Head => print_head(report, line),
        Stage::Count | Stage::Learner | Stage::Turn | Stage::Length => silent(take_byte(
            report,
            &room[place..end],
        )),
        Stage::Sheet => take_sheet(report, room, place, end, memory, line),
        Stage::Line => print_pending(report, room, memory, line),
        Stage::Last => print_last(report, line),
        Stage::Nothing => silent(at_stage(report, Stage::Nothing, number::start())),
    }
}

// A step, on the bytes that were handed, which lie in the memory from a place to an end; the pending sheet lies there too. Internal:
// callers have shown that a session in memory is kept, and that there is room for a line. docs/PROMISES.md
// names it, so that it takes slices as before.
pub fn take(
    report: Report,
    room: &[u8],
    place: usize,
    end: usize,
    memory: &mut [u64],
    lines: &mut [u8],
) -> Step
    requires lent { Lent memory.old lines.old }
    requires place_le_end { (place ≤ end) × (end ≤ length room.now) }
    ensures { Took report room.now place (take (end - place) (drop place room.now)) memory.old memory.new
        lines.old lines.new result }
{
    let Some(session) = memory.first_chunk_mut::<WORDS>() else {
        unreachable!();
    };
    let Some(line) = lines.first_chunk_mut::<ROOM>() else {
        unreachable!();
    };
    take_step(report, room, place, end, session, line)
}
