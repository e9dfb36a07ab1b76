// Steps over an entry of a file in memory that are passed at once: its numbers are read together, and further turns of the learner whose
// sheet is pending one after the other, since none of them is run.
ghost use Rattle.std.specs.Prelude.{◌≤◌, ◌≡◌, true, Some, length};
ghost use Rattle.rules.specs.Formula.{test};
ghost use Rattle.class_rules.specs.Report.{fits};
ghost use Rattle.class.specs.Steps.{going};
ghost use Rattle.class_parts.specs.Passing.{header_at, Passed};

use class::{Report, Stage, Turned};
use number::LIMIT_32;
use sheet_counts::Tally;

// Where a report stands behind what was passed over.
#[derive(Clone, Copy, Debug, PartialEq, Eq)]
pub struct Along {
    pub place: usize,
    pub report: Report,
}

// The numbers of the entry at a place, with its sheet's; nothing where not all of them can be read.
fn header_at(file: &[u8], place: usize) -> Option<Turned>
    ensures { result ≡ header_at file.now place }
{
    let (learner, place) = number::read(file, place, LIMIT_32).ok()?;
    let (turn, place) = number::read(file, place, LIMIT_32).ok()?;
    let (length, place) = number::read(file, place, LIMIT_32).ok()?;
    Some(Turned {
        learner,
        turn,
        place,
        length,
    })
}

// Whether all of a sheet is there.
fn is_whole(file: &[u8], sheet: Turned) -> bool
    requires { sheet.place ≤ length file.now }
    ensures { result ≡ test (fits file.now sheet.place sheet.length) }
{
    sheet.length <= class::MOST && sheet.length as usize <= file.len() - sheet.place
}

// Reads the numbers of an entry that begins, if they can be read.
fn pass_numbers(file: &[u8], place: usize, report: Report) -> Along
    requires { (place ≤ length file.now) × (report ≡ going report.left report.pending report.tally) × (1 ≤ report.left) }
    ensures { Passed file.now place report result.place result.report }
{
    match header_at(file, place) {
        Some(e) => Along {
            place: e.place,
            report: class::with_entry(report, Stage::Sheet, e.learner, e.turn, e.length),
        },
        None => Along { place, report },
    }
}

// Passes over further turns of a pending learner, with so many entries left; the last entry is left to the steps.
fn pass_from(file: &[u8], place: usize, sheet: Turned, left: u64, tally: Tally) -> Along
    requires { (place ≤ length file.now) × (1 ≤ left) }
    ensures { Passed file.now place (going left (Some sheet) tally) result.place result.report }
{
    let mut at = place;
    let mut more = left;
    let mut held = sheet;
    // no index is counted: what ends it is the entry that stands there
    while 1 < more {
        let Some(later) = header_at(file, at) else {
            break;
        };
        if later.learner != held.learner {
            break;
        }
        if !is_whole(file, later) {
            break;
        }
        held = class::supersede(file, held, later);
        at = later.place + later.length as usize;
        more -= 1;
    }
    pass_numbers(file, at, class::go_on(more, Some(held), tally))
}

// Whether the next entry comes, and nothing of it is read.
fn begins_entry(report: Report) -> bool
    ensures { result ≡ true → (report ≡ going report.left report.pending report.tally) × (1 ≤ report.left) }
{
    let Stage::Learner = report.stage else {
        return false;
    };
    let number = report.number;
    let read = [
        number.value,
        number.weight,
        report.learner,
        report.turn,
        report.length,
        report.stop,
    ];
    report.left != 0 && read == [0, 1, 0, 0, 0, 0]
}

// Passes over what needs no step, where an entry begins.
pub fn pass_over(file: &[u8], place: usize, report: Report) -> Along
    requires { place ≤ length file.now }
    ensures { Passed file.now place report result.place result.report }
{
    if !begins_entry(report) {
        return Along { place, report };
    }
    match report.pending {
        Some(sheet) => pass_from(file, place, sheet, report.left, report.tally),
        None => pass_numbers(file, place, report),
    }
}
