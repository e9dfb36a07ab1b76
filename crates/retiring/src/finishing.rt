// Firing the output events of finish tasks that are done, and the steps climbed on the way.
ghost use Rattle.std.specs.Prelude.{◌≡◌, ◌+◌, ◌≤◌, ◌<◌};
ghost use Rattle.session.specs.Names.{most_objects, link_places, running};
ghost use Rattle.session.specs.Table.{read, put};
ghost use Rattle.session.specs.Lent.{was, Becomes};
ghost use Rattle.session.specs.declared.Field.TheVariants.{Objects, TaskState, EventState, LinkSource, LinkState};
ghost use Rattle.rules.specs.Formula.{Holds};
ghost use Rattle.rules.specs.Effects.{fire_finished};
ghost use Rattle.rules.specs.Descendants.{busy, climbed};
ghost use Rattle.effects.specs.Made.{Made};
ghost use Rattle.holding.specs.SweepRows.{row};
ghost use Rattle.retiring.specs.TidyUnderWay.{Tidy};
ghost use Rattle.retiring.specs.Finish.{fire_row, states_fired, ready_row, links_ready, Within};
ghost use Rattle.retiring.specs.Climb.{Climbed, OnlyAbove, OnlyOne};

use crate::children::is_busy;
use crate::climbing::{Found, Marks, Walk, climb, first_step, stops_above, task_waits};
use session::{Field, Memory, names};

// How many levels up a climb is looked at without marks: each costs a pass over the objects, and marks cost two rows of them.
pub const LEVELS: u64 = 2;

// Event e is fired if it is marked. Internal: callers have shown the handle.
fn fire_marked(s: &mut Memory, fires: &Marks, e: u64)
    requires { e ≤ most_objects }
    ensures { Becomes s.old s.new (put (was s.old) EventState e (fire_row fires.now e (row (was s.old) e))) }
{
    if fires[e as usize] == 1 {
        session::set(s, Field::EventState, e as usize, names::FIRED);
    }
}

// Every marked event is fired. Internal: callers have shown that no mark is past the count of objects.
fn fire_all_marked(s: &mut Memory, fires: &Marks)
    requires { (read s.old Objects 0 ≤ most_objects) × Within fires.now (read s.old Objects 0) }
    ensures { Becomes s.old s.new (states_fired (was s.old) fires.now) }
{
    let n = session::get(s, Field::Objects, 0);
    for e in 0..n + 1 {
        fire_marked(s, fires, e);
    }
}

// Link l is ready if it is open and its event is marked. Internal: callers have shown the link and its source.
fn ready_marked(s: &mut Memory, fires: &Marks, l: u64)
    requires { (l < link_places) × (read s.old LinkSource l ≤ most_objects) }
    ensures { Becomes s.old s.new (put (was s.old) LinkState l (ready_row fires.now l (row (was s.old) l))) }
{
    let e = session::get(s, Field::LinkSource, l as usize) as usize;
    if fires[e] == 1 {
        if session::get(s, Field::LinkState, l as usize) == names::LINK_OPEN {
            session::set(s, Field::LinkState, l as usize, names::READY);
        }
    }
}

// Every open link of a marked event is ready. Internal: callers have shown a tidy session.
fn ready_all_marked(s: &mut Memory, fires: &Marks)
    requires { Tidy (read s.old) }
    ensures { Becomes s.old s.new (links_ready (was s.old) fires.now) }
{
    let n = session::get(s, Field::Links, 0);
    for l in 0..n + 1 {
        ready_marked(s, fires, l);
    }
}

// Fires the marked events. Internal: callers have shown a tidy session and that no mark is past the count.
fn fire_by_marks(s: &mut Memory, fires: &Marks)
    requires { Tidy (read s.old) × Within fires.now (read s.old Objects 0) }
    ensures { Becomes s.old s.new (links_ready (states_fired (was s.old) fires.now) fires.now) }
{
    fire_all_marked(s, fires);
    ready_all_marked(s, fires);
}

// Fires what a climb that is at its end found, with payload 0, which an open event has already. Nearly always one event fires or none;
// several share one pass over the links. Internal: callers have shown a tidy session and what the climb found.
fn fire_found(s: &mut Memory, fires: &Marks, found: Found)
    requires { Tidy (read s.old) × Climbed (read s.old) fires.now found 0 }
    ensures { Becomes s.old s.new (fire_finished (was s.old)) }
{
    match found {
        Found::Nothing => {}
        Found::One(e) => effects::fire_one(s, e, 0),
        Found::Several => fire_by_marks(s, fires),
    }
}

// Fires every output event that finishes, and answers the steps climbed. Internal, as `fire_finished` is.
fn fire_above(s: &mut Memory, t: u64) -> u64
    requires { Tidy (read s.old) × (1 ≤ t) × (read s.old TaskState t ≤ running → ⊥)
        × OnlyAbove (read s.old) t }
    ensures { Made s.old s.new (fire_finished (was s.old)) (climbed (was s.old) t) result }
{
    let mut live: Marks = [0; names::OBJECT_PLACES];
    ancestors::mark_all(s, &mut live);
    let mut fires: Marks = [0; names::OBJECT_PLACES];
    let mut walk = Walk {
        steps: 0,
        found: Found::Nothing,
    };
    climb(s, &live, &mut fires, &mut walk, t);
    fire_found(s, &fires, walk.found);
    walk.steps
}

// Fires the event of task t, which is over, if it waits. Internal: callers have shown a tidy session, and that no other event can
// finish.
fn fire_own(s: &mut Memory, t: u64)
    requires { Tidy (read s.old) × (t ≤ read s.old Objects 0)
        × (Holds (busy (read s.old) t) → ⊥) × OnlyOne (read s.old) (t + 1) }
    ensures { Becomes s.old s.new (fire_finished (was s.old)) }
{
    if task_waits(s, t) {
        effects::fire_one(s, t + 1, 0);
    }
}

// As `fire_finished`, where t has no live descendant either. Most often the climb stops at its creator; where it goes on, and nothing
// fires here, it is looked at from the creator in the same way, so many levels up, and then by marks.
pub fn fire_over(s: &mut Memory, t: u64, levels: u64) -> u64
    requires { Tidy (read s.old) × (1 ≤ t) × (read s.old TaskState t ≤ running → ⊥)
        × OnlyAbove (read s.old) t × (Holds (busy (read s.old) t) → ⊥) }
    ensures { Made s.old s.new (fire_finished (was s.old)) (climbed (was s.old) t) result }
{
    if stops_above(s, t) {
        let steps = first_step(s, t);
        fire_own(s, t);
        return steps;
    }
    if levels == 0 || task_waits(s, t) {
        return fire_above(s, t);
    }
    let c = session::get(s, Field::TaskCreator, t as usize);
    fire_over(s, c, levels - 1) + 1
}

// Fires every output event that finishes, once task t has ended, and answers the steps climbed. Internal: callers have shown a tidy
// session, that t is not live, and that no event can finish but those of t and the tasks above it.
pub fn fire_finished(s: &mut Memory, t: u64) -> u64
    requires { Tidy (read s.old) × (1 ≤ t) × (read s.old TaskState t ≤ running → ⊥)
        × OnlyAbove (read s.old) t }
    ensures { Made s.old s.new (fire_finished (was s.old)) (climbed (was s.old) t) result }
{
    if is_busy(s, t) {
        return 0;
    }
    fire_over(s, t, LEVELS)
}
