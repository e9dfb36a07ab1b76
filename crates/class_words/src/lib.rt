#![tactic(auto)]

// The class report part by part, with where it stands in lent words.
ghost use Rattle.std.specs.Prelude.{◌≡◌};
ghost use Rattle.class_words.specs.Words.{code_of, stage_of, place_of, pending_of, report_of, words_of, Reports};

use class::{Report, Stage, Turned};
use number::Reader;
use rules::Refusal;
use sheet_counts::Tally;

// How many words say where a report stands.
pub const CLASS_WORDS: usize = 18;

type Words = [u64; CLASS_WORDS];

// What comes next by its code: codes are numbers, as C has them.
const STAGES: [Stage; 9] = [
    Stage::Head,
    Stage::Count,
    Stage::Learner,
    Stage::Turn,
    Stage::Length,
    Stage::Sheet,
    Stage::Last,
    Stage::Nothing,
    Stage::Line,
];

// What a code says; any other than those of the stages is the end.
fn stage_of(code: u64) -> Stage
    ensures { result ≡ stage_of code }
{
    STAGES.get(code as usize).copied().unwrap_or(Stage::Nothing)
}

fn code_of(stage: Stage) -> u64
    ensures { result ≡ code_of stage }
{
    stage as u64
}

// The place in the file where a report goes on.
fn place_of(words: &Words) -> usize
    ensures { result ≡ place_of words.now }
{
    words[1] as usize
}

// The pending sheet that words say.
fn pending_of(words: &Words) -> Option<Turned>
    ensures { result ≡ pending_of words.now }
{
    if words[9] == 0 {
        return None;
    }
    Some(Turned {
        learner: words[10],
        turn: words[11],
        place: words[12] as usize,
        length: words[13],
    })
}

// The report that words say.
fn report_of(words: &Words) -> Report
    ensures { result ≡ report_of words.now }
{
    let [
        code,
        _,
        value,
        weight,
        left,
        learner,
        turn,
        length,
        stop,
        _,
        _,
        _,
        _,
        _,
        records,
        refused,
        starts,
        dropped,
    ] = *words;
    Report {
        stage: stage_of(code),
        number: Reader { value, weight },
        left,
        learner,
        turn,
        length,
        stop,
        pending: pending_of(words),
        tally: Tally {
            records,
            refused,
            starts,
            dropped,
        },
    }
}

// The words of a report and its place; where nobody is pending all of the sheet is 0.
fn words_of(place: usize, report: Report) -> Words
    ensures { result ≡ words_of place report }
{
    let nobody = Turned {
        learner: 0,
        turn: 0,
        place: 0,
        length: 0,
    };
    let sheet = report.pending.unwrap_or(nobody);
    [
        code_of(report.stage),
        place as u64,
        report.number.value,
        report.number.weight,
        report.left,
        report.learner,
        report.turn,
        report.length,
        report.stop,
        u64::from(report.pending.is_some()),
        sheet.learner,
        sheet.turn,
        sheet.place as u64,
        sheet.length,
        report.tally.records,
        report.tally.refused,
        report.tally.starts,
        report.tally.dropped,
    ]
}

// A part of a class report: the refusal's number, 0 if done, as C has it. `state` says where the report stands, eighteen words that
// are 0 before the first part, and where the next part goes on; its first word is 7 when nothing is left. `used` becomes the length of
// the part's lines.
pub fn report_on(
    file: &[u8],
    state: &mut [u64],
    memory: &mut [u64],
    lines: &mut [u8],
    used: &mut usize,
) -> u64
    ensures { Reports file.now state.old state.new memory.old memory.new
        lines.old lines.new used.new result }
{
    *used = 0;
    let Some(words) = state.first_chunk_mut::<CLASS_WORDS>() else {
        return u64::from(Refusal::NoRoom);
    };
    let place = place_of(words);
    match class_parts::report_part(file, place, report_of(words), memory, lines) {
        Ok(part) => {
            *used = part.used;
            *words = words_of(part.place, part.report);
            0
        }
        Err(refusal) => u64::from(refusal),
    }
}
