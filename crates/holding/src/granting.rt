// Granting and starting a task.
ghost use Rattle.std.specs.Prelude.{◌+◌, ◌*◌, ◌≤◌, ◌<◌};
ghost use Rattle.session.specs.Names.{most_objects};
ghost use Rattle.session.specs.Table.{read, put};
ghost use Rattle.session.specs.Lent.{was, Becomes};
ghost use Rattle.session.specs.declared.Field.TheVariants.{SlotMark};
ghost use Rattle.rules.specs.Formula.{Holds};
ghost use Rattle.rules.specs.Sound.{sound};
ghost use Rattle.rules.specs.Checks.{grant_checks, start_checks};
ghost use Rattle.rules.specs.Effects.{grant, start};
ghost use Rattle.laws.specs.Met.{met};
ghost use Rattle.holding.specs.SweepRows.{row};
ghost use Rattle.holding.specs.GrantedSlots.{grant_row, slots_granted};

use session::{Field, Memory, names};

// Slot j of task t is held if it has a block. Internal: callers have shown the slot.
fn hold_slot(s: &mut Memory, t: u64, j: u64)
    requires { (t ≤ most_objects) × (j < 16) }
    ensures { Becomes s.old s.new (put (was s.old) SlotMark (t * 16 + j) (grant_row t (t * 16 + j) (row (was s.old) (t * 16 + j)))) }
{
    let i = (t * 16 + j) as usize;
    if 1 <= session::get(s, Field::SlotPayload, i) {
        session::set(s, Field::SlotMark, i, names::HELD);
    }
}

// Every slot of task t that has a block is held. Internal, as `hold_slot` is.
fn hold_slots(s: &mut Memory, t: u64)
    requires { t ≤ most_objects }
    ensures { Becomes s.old s.new (slots_granted (was s.old) t) }
{
    for j in 0..16 {
        hold_slot(s, t, j);
    }
}

// 10 grant (task): it gets its blocks, all together. Internal: callers have shown a sound session and the checks.
pub fn grant(s: &mut Memory, t: u64)
    requires { Holds (sound (read s.old)) × met (grant_checks (read s.old) t) }
    ensures { Becomes s.old s.new (grant (was s.old) t) }
{
    hold_slots(s, t);
    session::set(s, Field::TaskState, t as usize, names::GRANTED);
}

// 11 start (task). Internal, as `grant` is.
pub fn start(s: &mut Memory, t: u64)
    requires { Holds (sound (read s.old)) × met (start_checks (read s.old) t) }
    ensures { Becomes s.old s.new (start (was s.old) t) }
{
    session::set(s, Field::TaskState, t as usize, names::RUNNING);
}
