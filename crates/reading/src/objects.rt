// What the rules say of one object or link (Reading.antt), for any handle. Internal: callers have shown the length where it is a slice.
ghost use Rattle.std.specs.Prelude.{◌≡◌, ◌≤◌, length};
ghost use Rattle.session.specs.Names.{event, most_objects, most_links};
ghost use Rattle.session.specs.Table.{read, words};
ghost use Rattle.session.specs.Lent.{was};
ghost use Rattle.session.specs.declared.Field.TheVariants.{TaskSlots};
ghost use Rattle.rules.specs.Formula.{Holds, test};
ghost use Rattle.rules.specs.Reading.{made, is_kind, is_user_event, is_running, is_live, is_gone, has_slot, is_undelivered, overflows};
ghost use Rattle.rules.specs.Reading.{is_fired_sticky};
ghost use Rattle.rules.specs.Checks.{task_slots};
ghost use Rattle.rules.specs.Effects.{drops};
ghost use Rattle.rules.specs.Sound.{full};
ghost use Rattle.reading.specs.Gone.{is_spent};

use crate::of_object;
use rules::event_types::{has_type_slot, is_gone_when_fired, is_user_type, refuses_further};
use session::{Field, Memory, names};

// Whether a number is the handle of an object.
pub fn is_made(s: &Memory, h: u64) -> bool
    ensures { result ≡ test (made (was s.now) h) }
{
    (1 <= h) & (h <= session::get(s, Field::Objects, 0))
}

pub fn is_kind(s: &Memory, k: u64, h: u64) -> bool
    ensures { result ≡ test (is_kind (was s.now) k h) }
{
    of_object(s, Field::Kind, h) == k
}

// Whether an object is an event of a type that a call may name.
pub fn is_user_event(s: &Memory, h: u64) -> bool
    ensures { result ≡ test (is_user_event (was s.now) h) }
{
    (of_object(s, Field::Kind, h) == names::EVENT) & is_user_type(of_object(s, Field::EventType, h))
}

// As a caller must be.
pub fn is_running(s: &Memory, h: u64) -> bool
    ensures { result ≡ test (is_running (was s.now) h) }
{
    if !is_made(s, h) {
        return false;
    }
    if !is_kind(s, names::TASK, h) {
        return false;
    }
    of_object(s, Field::TaskState, h) == names::RUNNING
}

// Whether h is a live task; callers have shown that h has a place.
pub fn is_live(s: &Memory, h: u64) -> bool
    requires { h ≤ most_objects }
    ensures { result ≡ test (is_live (was s.now) h) }
{
    if session::get(s, Field::Kind, h as usize) != names::TASK {
        return false;
    }
    session::get(s, Field::TaskState, h as usize) <= names::RUNNING
}

// A destroyed event, or one that counts as gone since it has fired.
pub fn is_spent(s: &Memory, e: u64) -> bool
    ensures { result ≡ test (is_spent (was s.now) e) }
{
    let state = of_object(s, Field::EventState, e);
    if names::DESTROYED_UNFIRED <= state {
        return true;
    }
    if state != names::FIRED {
        return false;
    }
    is_gone_when_fired(of_object(s, Field::EventType, e))
}

pub fn is_gone(s: &Memory, h: u64) -> bool
    ensures { result ≡ test (is_gone (was s.now) h) }
{
    let kind = of_object(s, Field::Kind, h);
    if kind == names::TEMPLATE {
        return names::TEMPLATE_DESTROYED <= of_object(s, Field::TemplateState, h);
    }
    if kind == names::TASK {
        return names::ENDED <= of_object(s, Field::TaskState, h);
    }
    if kind == names::EVENT {
        return is_spent(s, h);
    }
    if kind == names::BLOCK {
        return names::DOOMED <= of_object(s, Field::BlockState, h);
    }
    false
}

// Whether an event has a slot of that number. Internal: callers have shown the length, and that it is an event.
pub fn has_event_slot(s: &[u64], e: u64, j: u64) -> bool
    requires { (words ≤ length s.now) × Holds (is_kind (read s.now) event e) }
    ensures { result ≡ test (has_slot (was s.now) e j) }
{
    has_type_slot(of_object(s, Field::EventType, e), j)
}

// Whether an object has a slot of that number.
pub fn has_slot(s: &[u64], h: u64, j: u64) -> bool
    requires { words ≤ length s.now }
    ensures { result ≡ test (has_slot (was s.now) h j) }
{
    let kind = of_object(s, Field::Kind, h);
    if kind == names::TASK {
        return j < of_object(s, Field::TaskSlots, h);
    }
    if kind == names::EVENT {
        return has_event_slot(s, h, j);
    }
    false
}

// Whether a satisfaction of slot j would take the latch e out of its range.
pub fn overflows(s: &Memory, e: u64, j: u64) -> bool
    ensures { result ≡ test (overflows (was s.now) e j) }
{
    if !is_kind(s, names::EVENT, e) {
        return false;
    }
    if of_object(s, Field::EventType, e) != names::LATCH {
        return false;
    }
    let tally = of_object(s, Field::EventTally, e);
    if j == 0 {
        return tally == 0;
    }
    if j != 1 {
        return false;
    }
    tally == names::TOP_TALLY
}

pub fn is_fired_sticky(s: &Memory, e: u64) -> bool
    ensures { result ≡ test (is_fired_sticky (was s.now) e) }
{
    if !is_kind(s, names::EVENT, e) {
        return false;
    }
    if !refuses_further(of_object(s, Field::EventType, e)) {
        return false;
    }
    of_object(s, Field::EventState, e) == names::FIRED
}

// Whether a delivery to slot j of d is dropped.
pub fn drops(s: &Memory, d: u64, j: u64) -> bool
    ensures { result ≡ test (drops (was s.now) d j) }
{
    if is_gone(s, d) {
        return true;
    }
    if is_fired_sticky(s, d) {
        return true;
    }
    overflows(s, d, j)
}

// How many pre-slots a task gets: 17 takes the template's count.
pub fn task_slots(s: &Memory, template: u64, n: u64) -> u64
    ensures { result ≡ task_slots (was s.now) template n }
{
    if n == names::UNKNOWN_COUNT {
        return of_object(s, Field::TemplateCount, template);
    }
    n
}

// Whether every pre-slot of task t is satisfied. An empty one does not end the loop, as in no loop of check 2, which asks it of each
// task. Internal: callers have shown the length, the handle and the count of slots.
pub fn is_full(s: &[u64], t: u64) -> bool
    requires { (words ≤ length s.now) × (t ≤ most_objects) × (read s.now TaskSlots t ≤ 16) }
    ensures { result ≡ test (full (was s.now) t) }
{
    let n = session::get(s, Field::TaskSlots, t as usize) as usize;
    let first = t as usize * 16;
    let mut ok = true;
    for j in 0..n {
        ok &= 1 <= session::get(s, Field::SlotMark, first + j);
    }
    ok
}

// Whether a link is open or ready; callers have shown that it has a place.
pub fn is_undelivered(s: &Memory, l: u64) -> bool
    requires { l ≤ most_links }
    ensures { result ≡ test (is_undelivered (was s.now) l) }
{
    if session::get(s, Field::LinkState, l as usize) == names::LINK_OPEN {
        return true;
    }
    session::get(s, Field::LinkState, l as usize) == names::READY
}
