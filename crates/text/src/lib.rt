#![tactic(auto)]

// A sheet typed as text: numbers in decimal, apart by blanks, and `#` starts a comment to the end of its line.
ghost use Rattle.std.specs.Prelude.{◌≡◌, ◌+◌, ◌≤◌, OnSome, length, unwrap_or};
ghost use Rattle.number.specs.Number.{splice};
ghost use Rattle.text.specs.Text.{kind_of, longer, after_word, after_comment, after, ended};
ghost use Rattle.text.specs.Text.{encode_all, sheet_of, bad_line, answer, memory};

use number::LIMIT_32;

mod printed;

pub use printed::{put_printed, write_bytes};

// What a byte is to a reader of text.
#[derive(Clone, Copy, Debug, PartialEq, Eq)]
pub enum Kind {
    Newline,
    Blank,
    Hash,
    Digit(u64),
    Other,
}

// Where a reader of text stands: between words, in a word whose digits so far have this value, in a comment, or at a word that
// is no number or is above the limit.
#[derive(Clone, Copy, Debug, PartialEq, Eq)]
pub enum Mode {
    Between,
    Word(u64),
    Comment,
    Bad,
}

// Why a text gives no sheet: the line (from 1) of the first word that is no number or is above the limit, or that the memory lent is
// shorter than the text.
#[derive(Clone, Copy, Debug, PartialEq, Eq)]
pub enum Untyped {
    BadLine(u64),
    NoRoom,
}

// Turns text into a sheet at the start of lent memory, which must be as long as the text, and tells its length. Without a sheet no
// byte is written.
#[tactic(auto, using(crate::specs::TextLaws::what_is_given))]
pub fn to_sheet(text: &[u8], out: &mut [u8]) -> Result<usize, Untyped>
    ensures answer { result ≡ answer text.now out.old }
    ensures bytes { out.new ≡ memory text.now out.old }
{
    if out.len() < text.len() {
        return Err(Untyped::NoRoom);
    }
    if let Some(line) = bad_line(text) {
        return Err(Untyped::BadLine(line));
    }
    Ok(write_numbers(text, out))
}

// The line of the first word that is no number or is above the limit.
fn bad_line(text: &[u8]) -> Option<u64>
    ensures told { unwrap_or result 0 ≡ bad_line text.now }
    ensures from_one { OnSome result (1 ≤ bad_line text.now) }
{
    let mut mode = Mode::Between;
    let mut line: u64 = 1;
    for &b in text {
        mode = next(mode, b);
        if mode == Mode::Bad {
            return Some(line);
        }
        if b == b'\n' {
            line += 1;
        }
    }
    None
}

// Writes the numbers of a text and answers how many bytes they take. Internal: the caller has shown that there is room.
fn write_numbers(text: &[u8], out: &mut [u8]) -> usize
    requires { length text.now ≤ length out.old }
    ensures answer { result ≡ length (sheet_of text.now) }
    ensures bytes { out.new ≡ splice out.old 0 (sheet_of text.now) }
{
    let mut mode = Mode::Between;
    let mut used = 0;
    for &b in text {
        let then = next(mode, b);
        used = write_ended(mode, then, out, used);
        mode = then;
    }
    write_ended(mode, Mode::Between, out, used)
}

// Writes the value of a word that ended between two modes, if one did. Internal, as `write_numbers` is.
fn write_ended(mode: Mode, then: Mode, out: &mut [u8], used: usize) -> usize
    requires { used + length (encode_all (ended mode then)) ≤ length out.old }
    ensures answer { result ≡ used + length (encode_all (ended mode then)) }
    ensures bytes { out.new ≡ splice out.old used (encode_all (ended mode then)) }
{
    let Mode::Word(v) = mode else {
        return used;
    };
    if matches!(then, Mode::Word(_)) {
        return used;
    }
    number::write_number(v, out, used)
}

// Where a reader stands after a byte.
#[tactic(auto, unfolding(crate::specs::Text::after))]
fn next(mode: Mode, b: u8) -> Mode
    ensures { result ≡ after mode b }
{
    match mode {
        Mode::Between => next_in_word(0, b),
        Mode::Word(v) => next_in_word(v, b),
        Mode::Comment => next_in_comment(b),
        Mode::Bad => Mode::Bad,
    }
}

#[tactic(auto, unfolding(crate::specs::Text::after_word))]
fn next_in_word(v: u64, b: u8) -> Mode
    ensures { result ≡ after_word v (kind_of b) }
{
    match kind_of(b) {
        Kind::Newline => Mode::Between,
        Kind::Blank => Mode::Between,
        Kind::Hash => Mode::Comment,
        Kind::Digit(d) => with_digit(v, d),
        Kind::Other => Mode::Bad,
    }
}

#[tactic(auto, unfolding(crate::specs::Text::after_comment))]
fn next_in_comment(b: u8) -> Mode
    ensures { result ≡ after_comment (kind_of b) }
{
    match kind_of(b) {
        Kind::Newline => Mode::Between,
        Kind::Blank => Mode::Comment,
        Kind::Hash => Mode::Comment,
        Kind::Digit(_) => Mode::Comment,
        Kind::Other => Mode::Comment,
    }
}

// A word with one digit more. A sum that saturates is above the limit too.
#[tactic(auto, using(crate::specs::TextLaws::longer_or_bad))]
fn with_digit(v: u64, d: u64) -> Mode
    ensures { result ≡ longer v d }
{
    let value = v.saturating_mul(10).saturating_add(d);
    if value <= LIMIT_32 {
        Mode::Word(value)
    } else {
        Mode::Bad
    }
}

#[tactic(auto, using(crate::specs::TextLaws::kinds))]
fn kind_of(b: u8) -> Kind
    ensures { result ≡ kind_of b }
{
    match b {
        b'\n' => Kind::Newline,
        b'\t' | b'\r' | b' ' => Kind::Blank,
        b'#' => Kind::Hash,
        b'0'..=b'9' => Kind::Digit(u64::from(b - b'0')),
        _ => Kind::Other,
    }
}
