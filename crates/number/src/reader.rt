// A number that is read byte by byte, as its bytes come.
ghost use Rattle.std.specs.Prelude.{◌≡◌};
ghost use Rattle.number.specs.Fed.{start, group_fits, fed};

use crate::group;

// A number that is being read: its value so far, and the weight of the next byte's group, 0 once it is bad whatever follows. That is a
// number and no Option, since the C interface has both as words of a report.
#[derive(Clone, Copy, Debug, PartialEq, Eq)]
pub struct Reader {
    pub value: u64,
    pub weight: u64,
}

const SPOILT: Reader = Reader {
    value: 0,
    weight: 0,
};

// What feeding a byte gives: the number goes on, or its value, or a bad number.
#[derive(Clone, Copy, Debug, PartialEq, Eq)]
pub enum Fed {
    More(Reader),
    Whole(u64),
    Bad,
}

// The reader of a number that has no byte yet.
pub fn start() -> Reader
    ensures { result ≡ start }
{
    Reader {
        value: 0,
        weight: 1,
    }
}

// Feeds a byte.
#[tactic(auto, using(crate::proofs::Steps::fed_zero, crate::proofs::Steps::fed_short))]
pub fn feed(reader: Reader, byte: u8, limit: u64) -> Fed
    ensures { result ≡ fed limit reader byte }
{
    if !group_fits(reader, byte, limit) {
        if byte < 128 {
            return Fed::Bad;
        }
        return Fed::More(SPOILT);
    }
    let value = reader.value + group(byte) * reader.weight;
    let weight = reader.weight;
    if byte < 128 {
        if byte == 0 && 1 < weight {
            return Fed::Bad;
        }
        return Fed::Whole(value);
    }
    if limit / 128 < weight {
        return Fed::More(SPOILT);
    }
    Fed::More(Reader {
        value,
        weight: weight * 128,
    })
}

// Whether the value with a byte's group is within the limit. The product could wrap, so that a quotient is compared.
fn group_fits(reader: Reader, byte: u8, limit: u64) -> bool
    ensures { result ≡ group_fits limit reader byte }
{
    let value = reader.value;
    let weight = reader.weight;
    if weight == 0 {
        return false;
    }
    if limit < value {
        return false;
    }
    group(byte) <= (limit - value) / weight
}
