#![tactic(auto)]

// An operation as a record of a sheet: its code, then its fields, each a number. Memory and the place in it stay two parameters, as in
// `number`.
ghost use Rattle.std.specs.Prelude.{◌≡◌, ◌+◌, ◌≤◌, length, get_or, MatchResult};
ghost use Rattle.number.specs.Number.{splice, limit32, read_at, refusal_of};
ghost use Rattle.rules.specs.Arity.{is_edition};
ghost use Rattle.rules.specs.Formula.{test};
ghost use Rattle.rules.specs.Refusals.{number};
ghost use Rattle.record.specs.RecordReading.{place_told, record_told, edition_of, record_in, fields_at};
ghost use Rattle.record.specs.Writing.{within, numbers_bytes, written_at, memory_after};
ghost use Rattle.record.specs.Sheet.{head_at};

use number::{LIMIT_32, Unread};
use rules::{LAST_EDITION, Operation, Refusal};

// How many bytes must be free before a record is written.
pub const RECORD_ROOM: usize = 32;

fn is_edition(n: u64) -> bool
    ensures { result ≡ test (is_edition n) }
{
    (1 <= n) & (n <= LAST_EDITION)
}

// Why a number that can not be read turns a sheet down.
fn refusal_of(unread: Unread) -> Refusal
    ensures { number result ≡ refusal_of (Err unread) }
{
    match unread {
        Unread::Bad(_) => Refusal::BadNumber,
        Unread::CutShort => Refusal::CutShort,
    }
}

// The number at a place, within the limit, and the place behind it; or refusal 3 or 4.
fn read_number(bytes: &[u8], at: usize) -> Result<(u64, usize), Refusal>
    ensures { MatchResult result (λ read. read_at limit32 bytes.now at ≡ Ok read)
        (λ why. refusal_of (read_at limit32 bytes.now at) ≡ number why) }
{
    number::read(bytes, at, LIMIT_32).map_err(refusal_of)
}

// The sheet's first number, which is its edition: the place of the first record, or refusal 3, 4 or 5.
pub fn read_head(bytes: &[u8]) -> Result<usize, Refusal>
    ensures { place_told result ≡ head_at bytes.now }
{
    let (edition, first) = read_number(bytes, 0)?;
    if is_edition(edition) {
        Ok(first)
    } else {
        Err(Refusal::NotASheet)
    }
}

// A sheet's edition, 0 where its first number can not be read: a number and no Option, as the promise of `record::edition_of` has it.
pub fn edition_of(bytes: &[u8]) -> u64
    ensures { result ≡ edition_of bytes.now }
{
    match number::read(bytes, 0, LIMIT_32) {
        Ok((edition, _)) => edition,
        Err(_) => 0,
    }
}

// The record at a place of a sheet of an edition, an operation and the place behind it; or refusal 3, 4 or 6.
pub fn read_record(edition: u64, bytes: &[u8], at: usize) -> Result<(Operation, usize), Refusal>
    ensures { record_told result ≡ record_in edition bytes.now at }
{
    let (code, first) = read_number(bytes, at)?;
    let n = rules::arity_of(edition, code).ok_or(Refusal::UnknownCode)?;
    read_fields(bytes, code, first, n)
}

// The fields of an operation. A bad field is remembered and passed, since a later one may be cut short.
fn read_fields(
    bytes: &[u8],
    code: u64,
    first: usize,
    n: usize,
) -> Result<(Operation, usize), Refusal>
    requires { n ≤ 5 }
    ensures { record_told result ≡ fields_at bytes.now code first n }
{
    let mut fields = [0; 5];
    let mut bad = false;
    let mut next = first;
    for field in &mut fields[..n] {
        match number::read(bytes, next, LIMIT_32) {
            Ok((v, behind)) => {
                *field = v;
                next = behind;
            }
            Err(Unread::Bad(past)) => {
                bad = true;
                next = past;
            }
            Err(Unread::CutShort) => return Err(Refusal::CutShort),
        }
    }
    if bad {
        return Err(Refusal::BadNumber);
    }
    Ok((Operation { code, fields }, next))
}

// Writes an operation as a record of a sheet of an edition, behind a used length: the new used length, or refusal 1, 5, 4 or 6, which
// writes no byte.
pub fn write_record(
    edition: u64,
    op: Operation,
    out: &mut [u8],
    used: usize,
) -> Result<usize, Refusal>
    ensures answer { place_told result ≡ written_at edition op out.old used }
    ensures bytes { out.new ≡ memory_after edition op out.old used }
{
    if out.len().saturating_sub(used) < RECORD_ROOM {
        return Err(Refusal::NoRoom);
    }
    if !is_edition(edition) {
        return Err(Refusal::NotASheet);
    }
    if LIMIT_32 < op.code {
        return Err(Refusal::BadNumber);
    }
    let n = rules::arity_of(edition, op.code).ok_or(Refusal::UnknownCode)?;
    let fields = &op.fields[..n];
    if !all_within(fields) {
        return Err(Refusal::BadNumber);
    }
    Ok(write_numbers(op.code, fields, out, used))
}

// Whether fields are within the limit.
fn all_within(fields: &[u64]) -> bool
    ensures { result ≡ test (within (length fields.now) (λ k. get_or fields.now k 0)) }
{
    fields.iter().all(|field| *field <= LIMIT_32)
}

// Writes a code and the fields, for which there is room, and answers the place behind them.
fn write_numbers(code: u64, fields: &[u64], out: &mut [u8], used: usize) -> usize
    requires { used + length (numbers_bytes code (length fields.now) (λ k. get_or fields.now k 0)) ≤ length out.old }
    ensures place { result ≡ used + length (numbers_bytes code (length fields.now) (λ k. get_or fields.now k 0)) }
    ensures bytes { out.new ≡ splice out.old used (numbers_bytes code (length fields.now) (λ k. get_or fields.now k 0)) }
{
    let mut at = number::write_number(code, out, used);
    for field in fields {
        at = number::write_number(*field, out, at);
    }
    at
}
