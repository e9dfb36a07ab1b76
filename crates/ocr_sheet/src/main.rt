#![tactic(auto)]

// The sheet program: runs the sheet on standard input from a fresh session, and prints its lines and the last line.
ghost use Rattle.std.specs.Prelude.{◌≡◌, IfSome, OnOk, length, take};
ghost use Rattle.std.specs.Io.KnownBytes.{Appends};
ghost use Rattle.session.specs.Table.{words, read};
ghost use Rattle.session.specs.Fresh.{fresh_session};
ghost use Rattle.sheet.specs.Printing.{Ready};
ghost use Rattle.sheet.specs.SheetPrinted.{output};

use sheet::Next;
use std::io;
use std::io::{Read, Write};

// The bytes of standard input that are the sheet, at most.
const SHEET: usize = 32768;

// How many bytes of lines are printed at a time.
const PART: usize = 16384;

// Writes the lines of a sheet that is run on a fresh session, part by part. An error is that of a write.
fn print<W: Write>(
    writer: &mut W,
    sheet: &[u8],
    memory: &mut [u64],
    lines: &mut [u8],
) -> io::Result<()>
    requires ready { Ready memory.old lines.old }
    requires fresh { read memory.old ≡ fresh_session }
    ensures { OnOk result (Appends (W.contents writer.old) (W.contents writer.new) (output sheet.now)) }
{
    let mut next = Next::At(0, 0);
    loop {
        let part = sheet::run_part_from(sheet, next, memory, lines, true);
        let used = part.used;
        writer.write_all(&lines[..used])?;
        next = part.next;
        if let Next::Nothing = next {
            return Ok(());
        }
    }
}

// Reads a sheet, and writes its lines. An error is that of a read or of a write; of a write alone some bytes may have been written.
fn run<R: Read, W: Write>(reader: &mut R, writer: &mut W) -> io::Result<()>
    ensures { OnOk result (IfSome (R.remaining reader.old) (λ input.
        Appends (W.contents writer.old) (W.contents writer.new) (output (take 32768 input)))) }
{
    let mut bytes = [0u8; SHEET];
    let n = streams::read_full(reader, &mut bytes)?;
    let mut memory = [0u64; session::WORDS];
    session::put_fresh(&mut memory);
    let mut lines = [0u8; PART];
    print(writer, &bytes[..n], &mut memory, &mut lines)
}

fn main(rt: HostRuntime) -> io::Result<()> {
    run(&mut rt.stdin(), &mut rt.stdout())
}
