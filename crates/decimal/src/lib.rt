#![tactic(auto)]

// Numbers in decimal digits, as the lines have them. The loops divide a value and count no index. Memory and the place in it stay two
// parameters, as C lends a memory with the length used.
ghost use Rattle.std.specs.Prelude.{◌≡◌, ◌+◌, ◌≤◌, length};
ghost use Rattle.number.specs.Number.{splice};
ghost use Rattle.decimal.specs.Decimal.{decimal};

// How many digits a number has. `number::size` counts so to base 128: one function of both would need a count to any base, with its
// laws, beside `decimal` and `encode`, and is no plainer.
fn digits(v: u64) -> usize
    ensures { result ≡ length (decimal v) }
{
    let mut n: usize = 1;
    let mut rest = v;
    while 10 <= rest {
        rest = rest / 10;
        n += 1;
    }
    n
}

// Writes a number at a place and answers the place behind it. Internal: the caller has shown that there is room.
pub fn write(v: u64, out: &mut [u8], at: usize) -> usize
    requires { at + length (decimal v) ≤ length out.old }
    ensures answer { result ≡ at + length (decimal v) }
    ensures bytes { out.new ≡ splice out.old at (decimal v) }
{
    let end = at + digits(v);
    let mut last = end;
    let mut rest = v;
    while 10 <= rest {
        last -= 1;
        out[last] = (rest % 10 + 48) as u8;
        rest = rest / 10;
    }
    out[at] = (rest + 48) as u8;
    end
}
