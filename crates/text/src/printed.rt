// What the program `text_to_sheet` prints, put into lent memory.
ghost use Rattle.std.specs.Prelude.{◌≡◌, ◌+◌, ◌≤◌, length};
ghost use Rattle.text.specs.Put.{Put};
ghost use Rattle.text.specs.TextPrinted.{printed, printed_memory, line_text, printed_of, room_for};

use crate::Untyped;
use rules::Refusal;

// The longest text that is turned into a sheet.
const MOST: usize = 262144;

// How many bytes more than were typed are asked for: `line N` can be longer than a short text.
const PRINTED_MORE: usize = 16;

// Puts what is printed for a typed text at the start of lent memory, and tells how many bytes that are: its sheet, the line of its
// first word that is no number or is above the limit, or that it is too long. The memory must have 16 bytes more than were typed;
// under refusal 1 no byte is written.
#[tactic(auto, using(crate::specs::PrintedLaws::all_or_none))]
pub fn put_printed(typed: &[u8], out: &mut [u8]) -> Result<usize, Refusal>
    ensures answer { result ≡ printed (room_for typed.now) (printed_of typed.now) out.old }
    ensures bytes { out.new ≡ printed_memory (room_for typed.now) (printed_of typed.now) out.old }
{
    match out.len().checked_sub(PRINTED_MORE) {
        Some(room) if typed.len() <= room => Ok(write_printed(typed, out)),
        _ => Err(Refusal::NoRoom),
    }
}

// Writes what is printed, and answers how long it is. Internal, as all below are: the caller has shown that there is room.
fn write_printed(typed: &[u8], out: &mut [u8]) -> usize
    requires { room_for typed.now ≤ length out.old }
    ensures { Put out.old 0 (printed_of typed.now) result out.new }
{
    if MOST < typed.len() {
        return write_bytes(b"more than 262144 bytes\n", out, 0);
    }
    match crate::to_sheet(typed, out) {
        Ok(used) => used,
        Err(Untyped::BadLine(line)) => write_bad_line(line, out),
        Err(Untyped::NoRoom) => unreachable!(),
    }
}

fn write_bad_line(line: u64, out: &mut [u8]) -> usize
    requires { length (line_text line) ≤ length out.old }
    ensures { Put out.old 0 (line_text line) result out.new }
{
    let number = write_bytes(b"line ", out, 0);
    let end = decimal::write(line, out, number);
    write_bytes(b"\n", out, end)
}

// Writes bytes, and answers the place behind them. Internal, and `listing` calls it too. Memory and the place are two parameters here
// and in what calls this: memory is fixed and lent, and a struct of the two would be taken apart for each call of `decimal::write`,
// which writes numbers so for lines too.
#[tactic(auto, using(crate::specs::Put::put_copied))]
pub fn write_bytes(bytes: &[u8], out: &mut [u8], at: usize) -> usize
    requires { at + length bytes.now ≤ length out.old }
    ensures { Put out.old at bytes.now result out.new }
{
    let end = at + bytes.len();
    out[at..end].copy_from_slice(bytes);
    end
}
