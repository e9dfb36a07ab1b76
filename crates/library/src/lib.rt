#![tactic(auto)]

// The engine for other languages: C functions over numbers and slices (include/faltxigor.h).
ghost use Rattle.std.specs.Prelude.{◌≡◌, MatchResult};
ghost use Rattle.session.specs.Table.{read, pick};
ghost use Rattle.session.specs.Fresh.{Leaves, refused_length, fresh_session};
ghost use Rattle.rules.specs.Refusals.{refusal_told};
ghost use Rattle.sound.specs.RulesInOrder.{sound_memory};
ghost use Rattle.sheet.specs.WholeSheet.{Ran};
ghost use Rattle.sheet.specs.Closing.{Closes};
ghost use Rattle.class_words.specs.Words.{Reports};
ghost use Rattle.library.specs.Called.{Called, operation};
ghost use Rattle.library.specs.Sheets.{ended_by, closed_by};

use rules::{Operation, Refusal};
use session::TooShort;

// A refusal as document 01 has it: its number, 0 where there is none.
fn number_of(ending: Result<(), Refusal>) -> u64
    ensures { result ≡ refusal_told ending }
{
    match ending {
        Ok(_) => 0,
        Err(refusal) => u64::from(refusal),
    }
}

// Writes a fresh session: the refusal, 0 if done; 1 where the memory is too short, which then stays as it was.
pub fn faltxigor_fresh(memory: &mut [u64]) -> u64
    ensures answer { result ≡ refused_length memory.old }
    ensures memory { Leaves memory.old memory.new fresh_session }
{
    match session::write_fresh(memory) {
        Ok(()) => 0,
        Err(TooShort) => u64::from(Refusal::NoRoom),
    }
}

// A question: whether the words are a sound session, 1 or 0.
pub fn faltxigor_sound(memory: &[u64]) -> u64
    ensures { result ≡ pick (sound_memory memory.now) 1 0 }
{
    u64::from(sound::is_sound(memory))
}

// An answer as document 01 has it: the refusal, 0 if accepted, and what was made or the steps climbed, or 0, into `made`. A refusal is
// whatever becomes a number: one that has it already too.
pub fn tell<E: Into<u64>>(answer: Result<u64, E>, made: &mut u64) -> u64
    ensures refused { MatchResult answer (λ _. result ≡ 0) (λ e. E.converts e result) }
    ensures made { MatchResult answer (λ m. made.new ≡ m) (λ _. made.new ≡ 0) }
{
    match answer {
        Ok(m) => {
            *made = m;
            0
        }
        Err(refusal) => {
            let number = refusal.into();
            *made = 0;
            number
        }
    }
}

// One operation: the refusal, 0 if accepted; what was made or the steps climbed, or 0, goes into `made`.
pub fn faltxigor_apply(
    memory: &mut [u64],
    code: u64,
    f0: u64,
    f1: u64,
    f2: u64,
    f3: u64,
    f4: u64,
    made: &mut u64,
) -> u64
    ensures { Called memory.old memory.new (operation code f0 f1 f2 f3 f4) result made.new }
{
    let op = Operation {
        code,
        fields: [f0, f1, f2, f3, f4],
    };
    tell(engine::apply(memory, op), made)
}

// A sheet's records on a session, each with its line behind the lines there: the refusal that ended the sheet, 0 at its
// end. `used` becomes the lines' length, `place` and `number` say where the run ended. A session that every operation keeps
// sound is looked at once; any other at each record.
pub fn faltxigor_run(
    sheet: &[u8],
    memory: &mut [u64],
    lines: &mut [u8],
    used: &mut usize,
    place: &mut usize,
    number: &mut u64,
) -> u64
    ensures { Ran sheet.now memory.old memory.new lines.old lines.new used.old (ended_by used.new place.new number.new result) (read memory.old) }
{
    let ended = sheet::run(sheet, memory, lines, *used);
    let ending = number_of(ended.ending);
    *used = ended.used;
    *place = ended.place;
    *number = ended.number;
    ending
}

// The last line of a sheet behind the lines there: the refusal, 0 if done. `used` becomes the lines' length.
pub fn faltxigor_last_line(memory: &[u64], lines: &mut [u8], used: &mut usize) -> u64
    ensures { Closes memory.now lines.old lines.new used.old (closed_by result used.new) }
{
    match sheet::put_last_line(memory, lines, *used) {
        Ok(longer) => {
            *used = longer;
            0
        }
        Err(refused) => u64::from(refused),
    }
}

// A part of a class report: the refusal, 0 if done. `state` says where the report stands, eighteen words that are 0 before the
// first part, and where the next part goes on; its first word is 7 when nothing is left. `used` becomes the length of the part's lines.
pub fn faltxigor_class(
    file: &[u8],
    state: &mut [u64],
    memory: &mut [u64],
    lines: &mut [u8],
    used: &mut usize,
) -> u64
    ensures { Reports file.now state.old state.new memory.old memory.new
        lines.old lines.new used.new result }
{
    class_words::report_on(file, state, memory, lines, used)
}
