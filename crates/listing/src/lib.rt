#![tactic(auto)]

// A sheet as text: its edition on a line, then a line for each record, with the operation's name in a comment.
ghost use Rattle.std.specs.Prelude.{◌≡◌, ◌+◌, ◌≤◌, length, get_or};
ghost use Rattle.rules.specs.Arity.{is_code, field_count};
ghost use Rattle.rules.specs.Formula.{Holds};
ghost use Rattle.rules.specs.Refusals.{number};
ghost use Rattle.record.specs.Sheet.{records_from};
ghost use Rattle.text.specs.Put.{Put};
ghost use Rattle.text.specs.TextPrinted.{printed, printed_memory};
ghost use Rattle.listing.specs.Listing.{field_text, fields_text, line, refusal_line, records_text, text_of, room_for};

use rules::{LAST_EDITION, Operation, Refusal};
use text::write_bytes;

// How many bytes of text a byte of the sheet takes at most, and how many more are asked for.
pub const TEXT_A_BYTE: usize = 16;

pub const TEXT_MORE: usize = 64;

// Writes a sheet as text at the start of lent memory, and tells how long the text is. The memory must have 16 bytes for each of the
// sheet's and 64 more; under refusal 1 no byte is written. What can not be read is told in a comment behind the records before it.
#[tactic(auto, using(text::specs::PrintedLaws::all_or_none))]
pub fn to_text(sheet: &[u8], out: &mut [u8]) -> Result<usize, Refusal>
    ensures answer { result ≡ printed (room_for sheet.now) (text_of sheet.now) out.old }
    ensures bytes { out.new ≡ printed_memory (room_for sheet.now) (text_of sheet.now) out.old }
{
    match out.len().checked_sub(TEXT_MORE) {
        Some(room) if sheet.len() <= room / TEXT_A_BYTE => Ok(write_text(sheet, out)),
        _ => Err(Refusal::NoRoom),
    }
}

// Writes the text, and answers how long it is. Internal, as all below are: the caller has shown that there is room. Memory and the
// place to write at are two parameters, as of `text::write_bytes`.
fn write_text(sheet: &[u8], out: &mut [u8]) -> usize
    requires { room_for sheet.now ≤ length out.old }
    ensures { Put out.old 0 (text_of sheet.now) result out.new }
{
    match record::read_head(sheet) {
        Err(refusal) => write_refusal(0, refusal, out, 0),
        Ok(first) => {
            let end = decimal::write(record::edition_of(sheet), out, 0);
            let used = write_bytes(b"\n", out, end);
            write_records(sheet, first, out, used)
        }
    }
}

// Writes the records from the first one's place on.
fn write_records(sheet: &[u8], first: usize, out: &mut [u8], start: usize) -> usize
    requires past_head { 1 ≤ first }
    requires room { start + length (records_text 1 (records_from sheet.now (length sheet.now) first)) ≤ length out.old }
    ensures { Put out.old start (records_text 1 (records_from sheet.now (length sheet.now) first))
        result out.new }
{
    let edition = record::edition_of(sheet);
    let mut at = first;
    let mut used = start;
    let mut k: u64 = 1;
    // a while, since the record that was read tells the next place
    while at < sheet.len() {
        match record::read_record(edition, sheet, at) {
            Err(refusal) => return write_refusal(k, refusal, out, used),
            Ok((op, next)) => {
                used = write_line(op, out, used);
                at = next;
                k += 1;
            }
        }
    }
    used
}

// Writes the line of a record: its numbers, and the operation's name in a comment.
fn write_line(op: Operation, out: &mut [u8], at: usize) -> usize
    requires known { Holds (is_code op.code) }
    requires room { at + length (line op) ≤ length out.old }
    ensures { Put out.old at (line op) result out.new }
{
    let first = decimal::write(op.code, out, at);
    let n = field_count(op.code);
    let mark = write_fields(&op.fields[..n], out, first);
    let name = write_bytes(b"  # ", out, mark);
    let end = write_bytes(rules::name_of(op.code).as_bytes(), out, name);
    write_bytes(b"\n", out, end)
}

// How many fields an operation of a known code has: the last edition knows every code.
fn field_count(code: u64) -> usize
    requires { Holds (is_code code) }
    ensures count { result ≡ field_count code }
    ensures five { result ≤ 5 }
{
    rules::arity_of(LAST_EDITION, code).unwrap()
}

// Writes fields, each behind a space.
fn write_fields(fields: &[u64], out: &mut [u8], start: usize) -> usize
    requires { start + length (fields_text (length fields.now) (λ k. get_or fields.now k 0)) ≤ length out.old }
    ensures { Put out.old start (fields_text (length fields.now) (λ k. get_or fields.now k 0))
        result out.new }
{
    let mut at = start;
    for &v in fields {
        at = write_field(v, out, at);
    }
    at
}

#[tactic(auto, using(crate::specs::ListingLaws::lengths))]
fn write_field(v: u64, out: &mut [u8], at: usize) -> usize
    requires { at + length (field_text v) ≤ length out.old }
    ensures { Put out.old at (field_text v) result out.new }
{
    let number = write_bytes(b" ", out, at);
    decimal::write(v, out, number)
}

// Writes the line that tells where a sheet can not be read on, and why.
#[tactic(auto, using(crate::specs::ListingLaws::lengths))]
fn write_refusal(k: u64, refusal: Refusal, out: &mut [u8], at: usize) -> usize
    requires { at + length (refusal_line k (number refusal)) ≤ length out.old }
    ensures { Put out.old at (refusal_line k (number refusal)) result out.new }
{
    let first = write_bytes(b"# record ", out, at);
    let middle = decimal::write(k, out, first);
    let second = write_bytes(b": refusal ", out, middle);
    let end = decimal::write(u64::from(refusal), out, second);
    write_bytes(b"\n", out, end)
}
