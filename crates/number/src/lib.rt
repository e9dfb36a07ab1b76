#![tactic(auto)]

// Numbers in groups of seven bits, lowest first, the high bit set on all but the last byte, in the fewest bytes. The loops that stay `while`
// divide a value and count no index. Memory and the place in it stay two parameters, as C lends a memory with the length used.
ghost use Rattle.std.specs.Prelude.{◌≡◌, ◌+◌, ◌≤◌, ◌<◌, ◌%◌, length, true, false};
ghost use Rattle.number.specs.Number.{encode, judged, read_at, splice, written, memory};

mod reader;

pub use reader::{Fed, Reader, feed, start};

// The limit of document 01.
pub const LIMIT_32: u64 = 4294967295;

// Why there is no number at a place: a bad one stands there, with the place behind it, or one that is cut short.
#[derive(Clone, Copy, Debug, PartialEq, Eq)]
pub enum Unread {
    Bad(usize),
    CutShort,
}

// The number at a place, and the place behind it.
pub fn read(bytes: &[u8], at: usize, limit: u64) -> Result<(u64, usize), Unread>
    ensures { result ≡ read_at limit bytes.now at }
{
    let rest = bytes.get(at..).ok_or(Unread::CutShort)?;
    let last = rest
        .iter()
        .position(|byte| *byte < 128)
        .ok_or(Unread::CutShort)?;
    judge(&rest[..=last], limit, at + last + 1)
}

// What the bytes of a whole number give. The groups are taken from the highest down, so that a value past the limit shows
// before it could wrap.
fn judge(number: &[u8], limit: u64, next: usize) -> Result<(u64, usize), Unread>
    ensures { result ≡ judged limit number.now next }
{
    let n = number.len();
    if 1 < n && number[n - 1] == 0 {
        return Err(Unread::Bad(next));
    }
    let mut v: u64 = 0;
    for byte in number.iter().rev() {
        if limit / 128 < v {
            return Err(Unread::Bad(next));
        }
        v = v * 128 + group(*byte);
    }
    if limit < v {
        return Err(Unread::Bad(next));
    }
    Ok((v, next))
}

// The seven bits of a byte's group.
fn group(b: u8) -> u64
    ensures { result ≡ b % 128 }
{
    u64::from(b % 128)
}

// Writes a value after a used length, and answers the new used length. Without room for all its bytes none is written.
pub fn write(v: u64, out: &mut [u8], used: usize) -> Option<usize>
    ensures answer { result ≡ written v out.old used }
    ensures bytes { out.new ≡ memory v out.old used }
{
    if !has_room(v, out.len().saturating_sub(used)) {
        return None;
    }
    Some(put_groups(v, out, used))
}

// Whether so many bytes are room for a value; ten are for every one.
#[tactic(auto, using(crate::specs::NumberRoundTrip::length_64))]
fn has_room(v: u64, free: usize) -> bool
    ensures yes { result ≡ true → length (encode v) ≤ free }
    ensures no { result ≡ false → free < length (encode v) }
{
    (10 <= free) || (size(v) <= free)
}

// Writes a value and answers the place behind it. Internal, as all below are: the caller has shown that there is room.
fn put_groups(v: u64, out: &mut [u8], at: usize) -> usize
    requires { at + length (encode v) ≤ length out.old }
    ensures answer { result ≡ at + length (encode v) }
    ensures bytes { out.new ≡ splice out.old at (encode v) }
{
    let mut rest = v;
    let mut last = at;
    while 128 <= rest {
        out[last] = (rest % 128 + 128) as u8;
        rest = rest / 128;
        last += 1;
    }
    out[last] = rest as u8;
    last + 1
}

// The same by `write`, which finds that there is room.
pub fn write_number(v: u64, out: &mut [u8], at: usize) -> usize
    requires { at + length (encode v) ≤ length out.old }
    ensures answer { result ≡ at + length (encode v) }
    ensures bytes { out.new ≡ splice out.old at (encode v) }
{
    write(v, out, at).unwrap_or(at)
}

// How many bytes a value takes.
fn size(v: u64) -> usize
    ensures { result ≡ length (encode v) }
{
    let mut n: usize = 1;
    let mut rest = v;
    while 128 <= rest {
        rest = rest / 128;
        n += 1;
    }
    n
}
