#![tactic(auto)]

// Turns a sheet that was typed as text into its bytes: reads standard input, and writes the sheet to standard output. Of a text
// with a word that is no number, or is above 4,294,967,295, it prints `line N` and no sheet.
ghost use Rattle.std.specs.Prelude.{IfSome, OnOk};
ghost use Rattle.std.specs.Io.KnownBytes.{Appends};
ghost use Rattle.text.specs.TextPrinted.{printed_of};

use std::io;
use std::io::{Read, Write};

// One byte more than the longest text, so that a longer one shows.
const TYPED: usize = 262145;

// As many bytes as were typed, and 16 more.
const PRINTED: usize = TYPED + 16;

// `sheet_to_text` has the same two functions over its own sizes: one of both would have to say what a closure writes into a second memory, which
// is longer than they are.
//
// Reads what was typed into one memory, puts what is printed for it into another, and writes that. An error is that of a read or of a
// write; of the write alone some bytes may have been written.
fn print<R: Read, W: Write>(
    reader: &mut R,
    writer: &mut W,
    typed: &mut [u8; TYPED],
    out: &mut [u8; PRINTED],
) -> io::Result<()>
    ensures { OnOk result (IfSome (R.remaining reader.old) (λ input.
        Appends (W.contents writer.old) (W.contents writer.new) (printed_of input))) }
{
    let n = streams::read_full(reader, typed)?;
    let used = text::put_printed(&typed[..n], out).unwrap();
    writer.write_all(&out[..used])
}

// Reads what was typed, and writes what is printed for it.
fn run<R: Read, W: Write>(reader: &mut R, writer: &mut W) -> io::Result<()>
    ensures { OnOk result (IfSome (R.remaining reader.old) (λ input.
        Appends (W.contents writer.old) (W.contents writer.new) (printed_of input))) }
{
    let mut typed = [0u8; TYPED];
    let mut out = [0u8; PRINTED];
    print(reader, writer, &mut typed, &mut out)
}

fn main(rt: HostRuntime) -> io::Result<()> {
    run(&mut rt.stdin(), &mut rt.stdout())
}
