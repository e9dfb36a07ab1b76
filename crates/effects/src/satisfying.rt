// Satisfying a pre-slot of a task or a slot of an event; operation 6.
ghost use Rattle.std.specs.Prelude.{◌≡◌, ◌≤◌};
ghost use Rattle.session.specs.Names.{most_objects, top_tally};
ghost use Rattle.session.specs.Table.{read};
ghost use Rattle.session.specs.Lent.{was, Becomes};
ghost use Rattle.session.specs.declared.Field.TheVariants.{TaskSlots};
ghost use Rattle.rules.specs.Formula.{Holds, test};
ghost use Rattle.rules.specs.Sound.{sound, full};
ghost use Rattle.rules.specs.Checks.{satisfy_checks};
ghost use Rattle.rules.specs.Effects as rules;
ghost use Rattle.laws.specs.Met.{met};
ghost use Rattle.effects.specs.Satisfying.{Firable, Countable, Fillable, Triggerable, Satisfiable, next_tally};

use crate::firing::fire_one;
use reading::is_full;
use session::{Field, Memory, names};

// The same as `is_full`, with a look at the last pre-slot first: slots are mostly filled in turn, and then it is the one that is
// empty. Internal, as `is_full` is.
fn is_filled(s: &Memory, t: u64) -> bool
    requires { (t ≤ most_objects) × (read s.now TaskSlots t ≤ 16) }
    ensures { result ≡ test (full (was s.now) t) }
{
    let n = session::get(s, Field::TaskSlots, t as usize) as usize;
    if 0 < n && session::get(s, Field::SlotMark, t as usize * 16 + n - 1) == 0 {
        return false;
    }
    is_full(s, t)
}

// Satisfies slot j of task t with p. Internal: callers have shown the handle and the slot.
fn satisfy_slot(s: &mut Memory, t: u64, j: u64, p: u64)
    requires { (t ≤ most_objects) × Fillable (read s.old) t j }
    ensures { Becomes s.old s.new (rules.satisfy_slot (was s.old) t j p) }
{
    let at = t as usize * 16 + j as usize;
    session::set(s, Field::SlotMark, at, names::SATISFIED);
    session::set(s, Field::SlotPayload, at, p);
    if is_filled(s, t) {
        session::set(s, Field::TaskState, t as usize, names::RESOLVED);
    }
}

// A latch's tally n once its slot j was satisfied: 0 decrements, another increments. Internal: callers have shown the range.
fn next_tally(n: u64, j: u64) -> u64
    requires { (n ≤ top_tally) × (j ≡ 0 → 1 ≤ n) }
    ensures { result ≡ next_tally n j }
{
    if j == 0 { n - 1 } else { n + 1 }
}

// Counts latch e by its slot j, and fires it at the count 0. Internal: callers have shown the handle, the links and the
// latch's range.
fn tally(s: &mut Memory, e: u64, j: u64)
    requires { Firable (read s.old) e × Countable (read s.old) e j }
    ensures { Becomes s.old s.new (rules.tally (was s.old) e j) }
{
    let at = e as usize;
    let n = next_tally(session::get(s, Field::EventTally, at), j);
    session::set(s, Field::EventTally, at, n);
    if n == names::EVEN_TALLY {
        fire_one(s, e, 0);
    }
}

// Satisfies slot j of event e with p. Internal: callers have shown the handle, the links and, of a latch, its range.
fn satisfy_event(s: &mut Memory, e: u64, j: u64, p: u64)
    requires { Triggerable (read s.old) e j }
    ensures { Becomes s.old s.new (rules.satisfy_event (was s.old) e j p) }
{
    let at = e as usize;
    if session::get(s, Field::EventType, at) == names::LATCH {
        tally(s, e, j);
    } else if session::get(s, Field::EventState, at) != names::FIRED {
        fire_one(s, e, p);
    }
}

// Satisfies slot j of task or event d with p. Internal: callers have shown what `Satisfiable` says.
pub fn satisfy_either(s: &mut Memory, d: u64, j: u64, p: u64)
    requires { Satisfiable (read s.old) d j }
    ensures { Becomes s.old s.new (rules.satisfy (was s.old) d j p) }
{
    if session::get(s, Field::Kind, d as usize) == names::TASK {
        satisfy_slot(s, d, j, p);
    } else {
        satisfy_event(s, d, j, p);
    }
}

// 6 satisfy (caller, event, block or 0, slot). Internal: callers have shown a sound session and the checks.
pub fn satisfy(s: &mut Memory, caller: u64, e: u64, b: u64, j: u64)
    requires { Holds (sound (read s.old)) × met (satisfy_checks (read s.old) caller e b j) }
    ensures { Becomes s.old s.new (rules.satisfy_event (was s.old) e j b) }
{
    satisfy_event(s, e, j, b);
}
