// Ending a task.
ghost use Rattle.std.specs.Prelude.{◌≤◌};
ghost use Rattle.session.specs.Names.{most_objects};
ghost use Rattle.session.specs.Table.{read};
ghost use Rattle.session.specs.Lent.{was, Becomes};
ghost use Rattle.rules.specs.Formula.{Holds};
ghost use Rattle.rules.specs.Sound.{sound};
ghost use Rattle.rules.specs.Checks.{end_checks};
ghost use Rattle.rules.specs.Effects.{end};
ghost use Rattle.rules.specs.Step.{end_climbs};
ghost use Rattle.effects.specs.Made.{Made};
ghost use Rattle.laws.specs.Met.{met};
ghost use Rattle.retiring.specs.TidyUnderWay.{Tidy};
ghost use Rattle.retiring.specs.RetiringParts.{output_fired, OutputLow};

use crate::finishing::fire_finished;
use session::{Field, Memory, names};

// Fires the output event of task t with block b, if it has one and is plain. Internal: callers have shown the handles and
// a tidy session.
fn fire_output(s: &mut Memory, t: u64, b: u64)
    requires { (t ≤ most_objects) × Tidy (read s.old) × OutputLow (read s.old) t }
    ensures { Becomes s.old s.new (output_fired (was s.old) t b) }
{
    let at = t as usize;
    if session::get(s, Field::TaskOutput, at) == 1 && session::get(s, Field::TaskFinish, at) == 0 {
        effects::fire_one(s, t + 1, b);
    }
}

// 12 end (task, block or 0): the steps climbed, returned with the session. Internal: callers have shown a sound session and the
// checks.
pub fn end_task(s: &mut Memory, t: u64, b: u64) -> u64
    requires { Holds (sound (read s.old)) × met (end_checks (read s.old) t b) }
    ensures { Made s.old s.new (end (was s.old) t b) (end_climbs (was s.old) t b) result }
{
    holding::let_go_all(s, t);
    session::set(s, Field::TaskState, t as usize, names::ENDED);
    fire_output(s, t, b);
    fire_finished(s, t)
}
