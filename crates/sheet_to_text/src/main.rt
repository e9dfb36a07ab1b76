#![tactic(auto)]

// Prints a sheet as text: reads standard input, whose first 32,768 bytes at most are the sheet, and writes a line for each record,
// with the operation's name in a comment. What can not be read is told in a comment at the end.
ghost use Rattle.std.specs.Prelude.{IfSome, OnOk, take};
ghost use Rattle.std.specs.Io.KnownBytes.{Appends};
ghost use Rattle.listing.specs.Listing.{text_of};

use std::io;
use std::io::{Read, Write};

// The longest sheet that is read.
const SHEET: usize = 32768;

// 16 bytes of text for each byte of the sheet, and 64 more.
const TEXT: usize = 16 * SHEET + 64;

// `text_to_sheet` has the same two functions over its own sizes: one of both would have to say what a closure writes into a second memory, which
// is longer than they are.
//
// Reads a sheet into one memory, puts its text into another, and writes it. An error is that of a read or of a write; of the write
// alone some bytes may have been written.
fn print<R: Read, W: Write>(
    reader: &mut R,
    writer: &mut W,
    sheet: &mut [u8; SHEET],
    out: &mut [u8; TEXT],
) -> io::Result<()>
    ensures { OnOk result (IfSome (R.remaining reader.old) (λ input.
        Appends (W.contents writer.old) (W.contents writer.new) (text_of (take 32768 input)))) }
{
    let n = streams::read_full(reader, sheet)?;
    let used = listing::to_text(&sheet[..n], out).unwrap();
    writer.write_all(&out[..used])
}

// Reads a sheet, and writes its text.
fn run<R: Read, W: Write>(reader: &mut R, writer: &mut W) -> io::Result<()>
    ensures { OnOk result (IfSome (R.remaining reader.old) (λ input.
        Appends (W.contents writer.old) (W.contents writer.new) (text_of (take 32768 input)))) }
{
    let mut sheet = [0u8; SHEET];
    let mut out = [0u8; TEXT];
    print(reader, writer, &mut sheet, &mut out)
}

fn main(rt: HostRuntime) -> io::Result<()> {
    run(&mut rt.stdin(), &mut rt.stdout())
}
