#![tactic(auto)]

// The class report program: reports the class file on standard input, in memory for two sheets.
ghost use Rattle.std.specs.Prelude.{◌+◌, ◌≤◌, ◌≡◌, length, IfOk};
ghost use Rattle.sheet.specs.Printing.{Ready};
ghost use Rattle.text.specs.Put.{Put};
ghost use Rattle.class_report.specs.ProgramStepped.{step_on};

use class::{Report, Step};
use class_input::Window;
use session::Memory;
use std::io;
use std::io::{Read, Write};

// How many bytes of lines are gathered, at most, before they are written.
const PART: usize = 16384;

type Lines = [u8; PART];

// A step, its line put behind those that are gathered already.
fn gather(
    report: Report,
    room: &[u8],
    place: usize,
    end: usize,
    memory: &mut Memory,
    lines: &mut Lines,
    filled: usize,
) -> Step
    requires ready_2 { Ready memory.old lines.old × (filled + 128 ≤ 16384) }
    requires place_le_end { (place ≤ end) × (end ≤ length room.now) }
    ensures next { result.report ≡ (step_on room.now place end report memory.old).report }
    ensures line { Put lines.old filled (step_on room.now place end report memory.old).text result.used lines.new }
    ensures ready { Ready memory.new lines.new }
    ensures inside { result.used ≤ length lines.new }
{
    let step = class::take(report, room, place, end, memory, &mut lines[filled..]);
    Step {
        used: filled + step.used,
        ..step
    }
}

// Writes the lines if there may be no room for one more behind them, and answers how many bytes are left to write.
fn write_full<W: Write>(writer: &mut W, lines: &Lines, used: usize) -> io::Result<usize>
    requires { used ≤ 16384 }
    ensures { IfOk result (λ left. left + 128 ≤ 16384) }
{
    if used <= PART - class::ROOM {
        return Ok(used);
    }
    writer.write_all(&lines[..used])?;
    Ok(0)
}

// Reads a class file, and writes its report. An error is that of a read or of a write.
fn run<R: Read, W: Write>(reader: &mut R, writer: &mut W) -> io::Result<()> {
    let mut memory = [0u64; session::WORDS];
    session::put_fresh(&mut memory);
    let mut room = [0u8; class::TWO_SHEETS];
    let mut input = [0u8; class_input::INPUT];
    let mut window = Window { from: 0, to: 0 };
    let mut lines = [0u8; PART];
    let mut filled = 0;
    let mut report = class::begin();
    // a proved loop has to end, and nothing says that the input does: so many turns no run uses up
    for _ in (0..u64::MAX).rev() {
        let place = class::free_half(report);
        let handed = class_input::read_asked(reader, report, window, &mut input, place, &mut room)?;
        let step = gather(
            report,
            &room,
            place,
            handed.end,
            &mut memory,
            &mut lines,
            filled,
        );
        window = handed.window;
        filled = step.used;
        report = step.report;
        if class::is_over(report) {
            return writer.write_all(&lines[..filled]);
        }
        filled = write_full(writer, &lines, filled)?;
    }
    Ok(())
}

fn main(rt: HostRuntime) -> io::Result<()> {
    run(&mut rt.stdin(), &mut rt.stdout())
}
