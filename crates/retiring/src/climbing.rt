// Walking upwards from a task that has ended or was destroyed.
ghost use Rattle.std.specs.Prelude.{◌≡◌, ◌+◌, ◌≤◌};
ghost use Rattle.session.specs.Names.{most_objects, running};
ghost use Rattle.session.specs.Table.{read};
ghost use Rattle.session.specs.Lent.{was};
ghost use Rattle.session.specs.declared.Field.TheVariants.{Objects, TaskState, TaskCreator};
ghost use Rattle.rules.specs.Formula.{Holds, test, choose, Formula.◌≼◌};
ghost use Rattle.rules.specs.Descendants.{busy};
ghost use Rattle.ancestors.specs.Above.{Shows};
ghost use Rattle.retiring.specs.TidyUnderWay.{Tidy};
ghost use Rattle.retiring.specs.Finish.{waits};
ghost use Rattle.retiring.specs.Climb.{Climbed, done_creator, handle};
ghost use Rattle.retiring.specs.Steps.{StopsTold, Walked};

use crate::children::is_busy_above;
use session::{Field, Memory, names};

// A mark for each handle.
pub type Marks = [u64; names::OBJECT_PLACES];

// What a walk found to fire: no event, one, or more, which are marked.
#[derive(Clone, Copy, Debug, PartialEq, Eq)]
pub enum Found {
    Nothing,
    One(u64),
    Several,
}

// How far a walk has come: the steps climbed, and what it found to fire.
#[derive(Clone, Copy, Debug, PartialEq, Eq)]
pub struct Walk {
    pub steps: u64,
    pub found: Found,
}

// Whether task h is an ended finish task with an open output event, which is the next handle; the last handle is followed by
// none. That few tasks have ended is looked at first. Internal: callers have shown a tidy session and the handle.
pub fn task_waits(s: &Memory, h: u64) -> bool
    requires { Tidy (read s.now) × (h ≤ read s.now Objects 0) }
    ensures { result ≡ test (waits (was s.now) h) }
{
    let t = h as usize;
    if session::get(s, Field::TaskState, t) != names::ENDED {
        return false;
    }
    if session::get(s, Field::TaskFinish, t) != 1 {
        return false;
    }
    if names::MOST_OBJECTS <= h {
        return false;
    }
    if session::get(s, Field::EventState, t + 1) != names::OPEN {
        return false;
    }
    if session::get(s, Field::Kind, t + 1) != names::EVENT {
        return false;
    }
    session::get(s, Field::EventType, t + 1) == names::OUTPUT
}

// The creator of task h, if there is one and it is not live: no task above a live one can be done. Internal, as `task_waits` is.
#[tactic(auto, using(crate::specs::Climb::live_creator_none))]
fn done_creator(s: &Memory, h: u64) -> Option<u64>
    requires { Tidy (read s.now) × (h ≤ read s.now Objects 0) }
    ensures { result ≡ handle (done_creator (was s.now) h) }
{
    let c = session::get(s, Field::TaskCreator, h as usize);
    if c == 0 {
        return None;
    }
    if session::get(s, Field::TaskState, c as usize) <= names::RUNNING {
        return None;
    }
    Some(c)
}

// Whether a climb from task h stops at its creator: this is live or has a live descendant. So too where h is main, which has none.
// Internal, as `task_waits` is.
pub fn stops_above(s: &Memory, h: u64) -> bool
    requires { Tidy (read s.now) × (h ≤ read s.now Objects 0) }
    ensures { StopsTold (was s.now) h result }
{
    match done_creator(s, h) {
        None => true,
        Some(c) => is_busy_above(s, c),
    }
}

// The first step of a climb from task h: none from main, which has no creator. Internal, as `task_waits` is.
#[tactic(auto, using(crate::specs::Steps::step_read))]
pub fn first_step(s: &Memory, h: u64) -> u64
    requires { Tidy (read s.now) × (h ≤ read s.now Objects 0) }
    ensures { result ≡ choose (1 ≼ was s.now TaskCreator h) 1 0 }
{
    let creator = session::get(s, Field::TaskCreator, h as usize);
    u64::from(creator != 0)
}

// Marks the event of task h, which is over, if it waits, and answers what is found with it. Internal: callers have shown how far the
// climb has come.
fn mark_task(s: &Memory, fires: &mut Marks, found: Found, h: u64) -> Found
    requires { Tidy (read s.now) × (1 ≤ h) × (Holds (busy (read s.now) h) → ⊥) × Climbed (read s.now) fires.old found h }
    ensures { Climbed (was s.now) fires.new result (done_creator (was s.now) h) }
{
    if !task_waits(s, h) {
        return found;
    }
    fires[(h + 1) as usize] = 1;
    match found {
        Found::Nothing => Found::One(h + 1),
        _ => Found::Several,
    }
}

// One walk upwards from task h, which is not live, gives both the steps and the events that fire: as long as the task stood on has
// no live descendant its event is marked if it waits, and the walk goes on from its creator. The walk is lent, so that the call stands
// last and takes no stack of its own. Internal, as `mark_task` is.
pub fn climb(s: &Memory, live: &Marks, fires: &mut Marks, walk: &mut Walk, h: u64)
    requires { Tidy (read s.now) × (1 ≤ h) × (read s.now TaskState h ≤ running → ⊥) × Shows live.now (busy (read s.now))
        × Climbed (read s.now) fires.old walk.old.found h × (walk.old.steps + h ≤ most_objects) }
    ensures { Walked (was s.now) fires.new walk.old walk.new h }
{
    let busy = live[h as usize] != 0;
    if busy {
        return;
    }
    walk.found = mark_task(s, fires, walk.found, h);
    if session::get(s, Field::TaskCreator, h as usize) == 0 {
        return;
    }
    walk.steps += 1;
    match done_creator(s, h) {
        None => {}
        Some(c) => climb(s, live, fires, walk, c),
    }
}
