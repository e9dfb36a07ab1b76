#![tactic(auto)]

// The lines that a sheet prints: three numbers in decimal, apart by a space, and a newline. Memory and the place in it stay two
// parameters, as C lends a memory with the length used.
ghost use Rattle.std.specs.Prelude.{◌≡◌, ◌+◌, ◌≤◌, length};
ghost use Rattle.number.specs.Number.{splice};
ghost use Rattle.lines.specs.Line.{marked, line};

pub const SPACE: u8 = 32;

pub const NEWLINE: u8 = 10;

// Writes a number and a mark behind it, and answers the place behind them. Internal: the caller has shown that there is room.
pub fn write_marked(out: &mut [u8], at: usize, v: u64, mark: u8) -> usize
    requires { at + length (marked v mark) ≤ length out.old }
    ensures answer { result ≡ at + length (marked v mark) }
    ensures bytes { out.new ≡ splice out.old at (marked v mark) }
{
    let last = decimal::write(v, out, at);
    out[last] = mark;
    last + 1
}

// Writes a line at the start of lent memory and answers its length. Internal, as `write_marked` is.
fn write_line(out: &mut [u8], a: u64, b: u64, c: u64) -> usize
    requires { length (line a b c) ≤ length out.old }
    ensures answer { result ≡ length (line a b c) }
    ensures bytes { out.new ≡ splice out.old 0 (line a b c) }
{
    let first = write_marked(out, 0, a, SPACE);
    let second = write_marked(out, first, b, SPACE);
    write_marked(out, second, c, NEWLINE)
}

// Writes a line behind the lines already there, and answers the new used length. Internal, as `write_line` is: the free tail
// of the memory is lent on to it.
pub fn put_line(lines: &mut [u8], used: usize, a: u64, b: u64, c: u64) -> usize
    requires { used + length (line a b c) ≤ length lines.old }
    ensures answer { result ≡ used + length (line a b c) }
    ensures bytes { lines.new ≡ splice lines.old used (line a b c) }
{
    let tail = &mut lines[used..];
    used + write_line(tail, a, b, c)
}
