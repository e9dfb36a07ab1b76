// The lines of a report. Internal: callers have shown that there is room.
ghost use Rattle.std.specs.Prelude.{◌+◌, ◌≤◌, length};
ghost use Rattle.lines.specs.Line.{marked};
ghost use Rattle.text.specs.Put.{Put};
ghost use Rattle.class_rules.specs.Report.{head, counts_line, entry_line, stop_line, last_line};

use crate::Line;
use lines::{NEWLINE, SPACE};
use sheet_counts::Tally;
use text::write_bytes;

// Writes a number and a mark behind it: at most twenty digits.
fn write_number(v: u64, mark: u8, out: &mut Line, at: usize) -> usize
    requires { at + 21 ≤ 128 }
    ensures put { Put out.old at (marked v mark) result out.new }
    ensures most { (length (marked v mark) ≤ 21) × (result ≤ at + 21) }
{
    lines::write_marked(out, at, v, mark)
}

// Writes the report's head.
pub fn write_head(out: &mut Line) -> usize
    ensures put { Put out.old 0 head result out.new }
    ensures most { result ≤ 128 }
{
    write_bytes(b"class 1\n", out, 0)
}

// Writes four counts and the end of the line.
pub fn write_counts(t: Tally, out: &mut Line, at: usize) -> usize
    requires { at + 84 ≤ 128 }
    ensures put { Put out.old at (counts_line t) result out.new }
    ensures most { result ≤ at + 84 }
{
    let refused = write_number(t.records, SPACE, out, at);
    let starts = write_number(t.refused, SPACE, out, refused);
    let dropped = write_number(t.starts, SPACE, out, starts);
    write_number(t.dropped, NEWLINE, out, dropped)
}

// Writes the line of a sheet.
pub fn write_entry(learner: u64, turn: u64, t: Tally, out: &mut Line) -> usize
    ensures put { Put out.old 0 (entry_line learner turn t) result out.new }
    ensures most { result ≤ 128 }
{
    let second = write_number(learner, SPACE, out, 0);
    let counts = write_number(turn, SPACE, out, second);
    write_counts(t, out, counts)
}

// Writes the line of a stop.
fn write_stop(n: u64, out: &mut Line) -> usize
    ensures put { Put out.old 0 (stop_line n) result out.new }
    ensures most { result ≤ 128 }
{
    let number = write_bytes(b"stop ", out, 0);
    write_number(n, NEWLINE, out, number)
}

// Writes the last line: the sums, or a stop in their place.
pub fn write_last(t: Tally, stop: u64, out: &mut Line) -> usize
    ensures put { Put out.old 0 (last_line t stop) result out.new }
    ensures most { result ≤ 128 }
{
    if stop == 0 {
        return write_counts(t, out, 0);
    }
    write_stop(stop, out)
}
