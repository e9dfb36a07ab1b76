#![tactic(auto)]

// One operation on a session in lent memory.
ghost use Rattle.std.specs.Prelude.{◌≤◌, length};
ghost use Rattle.session.specs.Table.{read, words};
ghost use Rattle.rules.specs.Formula.{Holds};
ghost use Rattle.rules.specs.Sound.{sound};
ghost use Rattle.rules.specs.Step.{step};
ghost use Rattle.rules.specs.Answer.{answer_told};
ghost use Rattle.engine.specs.Played.{Replied, Answered};

mod operations;

use rules::{Operation, Refusal};
use session::{Memory, WORDS};

// Runs an operation on a sound session.
fn play(s: &mut Memory, op: Operation) -> Result<u64, Refusal>
    requires { Holds (sound (read s.old)) }
    ensures { Replied s.old s.new (answer_told result) (step (read s.old) op) }
{
    let code = op.code;
    let f = op.fields;
    if code < 5 {
        return operations::make(s, code, f);
    }
    if code < 9 {
        return operations::call(s, code, f);
    }
    operations::move_on(s, code, f)
}

// Runs an operation on a session that its caller has shown to be sound, in memory of sufficient length: checks 1 and 2 are
// skipped. Internal, for callers that know. It keeps the slice that C lends (`unchecked_apply`).
pub fn apply_sound(memory: &mut [u64], op: Operation) -> Result<u64, Refusal>
    requires { (words ≤ length memory.old) × Holds (sound (read memory.old)) }
    ensures { Replied memory.old memory.new (answer_told result) (step (read memory.old) op) }
{
    let Some(s) = memory.first_chunk_mut::<WORDS>() else {
        unreachable!()
    };
    play(s, op)
}

// Runs an operation on a session in lent memory: its first words.
pub fn apply(memory: &mut [u64], op: Operation) -> Result<u64, Refusal>
    ensures { Answered memory.old memory.new op (answer_told result) }
{
    let Some(s) = memory.first_chunk_mut::<WORDS>() else {
        return Err(Refusal::NoRoom);
    };
    if !sound::is_sound(s) {
        return Err(Refusal::NotSound);
    }
    play(s, op)
}
