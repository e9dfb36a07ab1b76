// A sheet's lines in parts: a part fills lent line memory, and tells where the next one goes on.
ghost use Rattle.std.specs.Prelude.{◌≡◌, true, ◌≤◌};
ghost use Rattle.session.specs.Table.{read};
ghost use Rattle.rules.specs.Formula.{Holds};
ghost use Rattle.rules.specs.Sound.{kept};
ghost use Rattle.rules.specs.Refusals.{refusal_told};
ghost use Rattle.sheet.specs.Run.{has_room, ended};
ghost use Rattle.sheet.specs.Going.{lines_of, lent};
ghost use Rattle.sheet.specs.SheetPrinted.{records_before};
ghost use Rattle.sheet.specs.PartOf.{TellsLast, last_part, is_going_on, PartOf, Parted};

use crate::{Ended, Next, Part, has_room, is_kept, put_last_line, run_at};
use rules::Refusal;
use session::{Memory, WORDS};

// How many records stand before a place: no more than bytes, whatever a caller says.
fn records_before(at: usize, k: u64) -> u64
    ensures { result ≡ records_before at k }
{
    k.min(at as u64)
}

// The last line behind the lines, if there is room for it. Internal.
fn last_part(memory: &Memory, lines: &mut [u8], used: usize) -> Part
    ensures { TellsLast memory.now lines.new result (last_part (read memory.now) (lines_of lines.old used)) }
{
    match put_last_line(memory, lines, used) {
        Ok(used) => Part {
            used,
            next: Next::Nothing,
        },
        Err(_) => Part {
            used,
            next: Next::LastLine,
        },
    }
}

// A run as a part: where it met 1, the next part goes on at the record that was not run; after any other ending comes the last
// line. Internal.
fn part_of(run: Ended, memory: &Memory, lines: &mut [u8]) -> Part
    requires { refusal_told run.ending ≡ 1 → 1 ≤ run.number }
    ensures { TellsLast memory.now lines.new result
        (is_going_on (ended (read memory.now) (lines_of lines.old run.used) run.place run.number
        (refusal_told run.ending))) }
{
    if run.ending == Err(Refusal::NoRoom) {
        return Part {
            used: run.used,
            next: Next::At(run.place, run.number - 1),
        };
    }
    last_part(memory, lines, run.used)
}

// The part of a sheet's lines that starts at a place. Internal; `sure` as in `is_admitted`.
fn part_from(sheet: &[u8], from: Next, memory: &mut Memory, lines: &mut [u8], sure: bool) -> Part
    requires { Holds (has_room (lines_of lines.old 0)) × (sure ≡ true → Holds (kept (read memory.old))) }
    ensures { PartOf sheet.now from memory.old memory.new lines.old lines.new result }
{
    match from {
        Next::At(at, k) => {
            let done = records_before(at, k);
            let run = run_at(sheet, at, done, memory, lines, 0, sure);
            part_of(run, memory, lines)
        }
        Next::LastLine => last_part(memory, lines, 0),
        Next::Nothing => Part {
            used: 0,
            next: Next::Nothing,
        },
    }
}

// The same of a session in longer memory. Internal: for callers that have shown check 1 to be met and, where they say `sure`, the
// session to be kept.
pub fn run_part_from(
    sheet: &[u8],
    from: Next,
    memory: &mut [u64],
    lines: &mut [u8],
    sure: bool,
) -> Part
    requires { Holds (lent memory.old (lines_of lines.old 0)) × (sure ≡ true → Holds (kept (read memory.old))) }
    ensures { PartOf sheet.now from memory.old memory.new lines.old lines.new result }
{
    let Some(session) = memory.first_chunk_mut::<WORDS>() else {
        unreachable!()
    };
    part_from(sheet, from, session, lines, sure)
}

// The part of a sheet's lines that starts at a place, on a session in lent memory: the lines of the records until the line
// memory is full and, when all are run, the last line. A kept session is looked at once; any other at each record.
pub fn run_part(
    sheet: &[u8],
    from: Next,
    memory: &mut [u64],
    lines: &mut [u8],
) -> Result<Part, Refusal>
    ensures { Parted sheet.now from memory.old memory.new lines.old lines.new result }
{
    let Some(session) = memory.first_chunk_mut::<WORDS>() else {
        return Err(Refusal::NoRoom);
    };
    if !has_room(lines, 0) {
        return Err(Refusal::NoRoom);
    }
    let sure = is_kept(session);
    Ok(part_from(sheet, from, session, lines, sure))
}
