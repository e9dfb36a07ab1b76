// The report of a class file in lent memory, in parts: a part fills lent line memory, and tells where the next one goes on.
ghost use Rattle.std.specs.Prelude.{◌+◌, ◌≤◌, ◌≡◌, length};
ghost use Rattle.session.specs.Table.{read};
ghost use Rattle.session.specs.Fresh.{fresh_session};
ghost use Rattle.rules.specs.Formula.{Holds};
ghost use Rattle.rules.specs.Sound.{kept};
ghost use Rattle.class_parts.specs.ReportParts.{SteppedOn, Reported, Parted};

use crate::{Part, passing};
use class::{ROOM, Report};
use rules::Refusal;
use session::{Memory, WORDS};

// A step on a file in memory, with its line behind the lines already there.
fn step_on(
    file: &[u8],
    place: usize,
    report: Report,
    memory: &mut Memory,
    lines: &mut [u8],
    used: usize,
) -> Part
    requires kept { Holds (kept (read memory.old)) }
    requires place_in_bounds { (place ≤ length file.now) × (used + 128 ≤ length lines.old) }
    ensures { SteppedOn file.now place report memory.old memory.new lines.old lines.new used result }
{
    let end = place + class::asks(report).min(file.len() - place);
    let step = class::take(report, file, place, end, memory, &mut lines[used..]);
    Part {
        used: used + step.used,
        place: end,
        report: step.report,
    }
}

// The steps from a place on, as long as there is room for a line.
fn report_from(
    file: &[u8],
    place: usize,
    report: Report,
    memory: &mut Memory,
    lines: &mut [u8],
) -> Part
    requires fresh { read memory.old ≡ fresh_session }
    requires place_in_bounds { (place ≤ length file.now) × (128 ≤ length lines.old) }
    ensures { Reported file.now place report memory.old memory.new lines.old lines.new result }
{
    let mut part = Part {
        used: 0,
        place,
        report,
    };
    // no index is counted: it ends where no line has room, or nothing is left
    while ROOM <= lines.len() - part.used {
        let along = passing::pass_over(file, part.place, part.report);
        if class::is_over(along.report) {
            return Part {
                place: along.place,
                report: along.report,
                ..part
            };
        }
        part = step_on(file, along.place, along.report, memory, lines, part.used);
    }
    part
}

// The part of a report that starts at a place of the class file, where the report stands; a place past the end is the end. The
// session memory is made fresh, and holds what the last sheet leaves. Check 1: the memory is long enough for a session, and there is
// room for a line. Both are slices, as C lends them.
pub fn report_part(
    file: &[u8],
    place: usize,
    report: Report,
    memory: &mut [u64],
    lines: &mut [u8],
) -> Result<Part, Refusal>
    ensures { Parted file.now place report memory.old memory.new lines.old lines.new result }
{
    if lines.len() < ROOM {
        return Err(Refusal::NoRoom);
    }
    let Some(session) = memory.first_chunk_mut::<WORDS>() else {
        return Err(Refusal::NoRoom);
    };
    session::put_fresh(session);
    Ok(report_from(file, place.min(file.len()), report, session, lines))
}
