// The rules about objects by themselves.
ghost use Rattle.std.specs.Prelude.{◌≡◌, ◌+◌};
ghost use Rattle.session.specs.declared.Field.TheVariants.{Objects};
ghost use Rattle.session.specs.Lent.{was};
ghost use Rattle.rules.specs.Formula.{test, Formula.each};
ghost use Rattle.rules.specs.Sound.{counts, template_part, task_part, event_part, block_part, roots, object, latch_at, latches};

use crate::passes::all_below;
use crate::places::is_payload;
use crate::view::View;
use reading::{is_made, of_object, of_slot};
use rules::event_types::{is_event_type, is_link_count};
use session::{Field, Memory, names};

pub fn are_counts(s: &Memory) -> bool
    ensures { result ≡ test (counts (was s.now)) }
{
    let objects = session::get(s, Field::Objects, 0);
    let links = session::get(s, Field::Links, 0);
    (2 <= objects) & ((objects <= names::MOST_OBJECTS) & (links <= names::MOST_LINKS))
}

pub fn template_part(s: &Memory, h: u64) -> bool
    ensures { result ≡ test (template_part (was s.now) h) }
{
    let state = of_object(s, Field::TemplateState, h);
    let count = of_object(s, Field::TemplateCount, h);
    let is = of_object(s, Field::Kind, h) == names::TEMPLATE;
    is & ((1 <= state) & ((state <= names::TEMPLATE_DESTROYED) & (count <= names::UNKNOWN_COUNT)))
        | !is & ((state == 0) & (count == 0))
}

pub fn task_part(s: &Memory, h: u64) -> bool
    ensures { result ≡ test (task_part (was s.now) h) }
{
    let state = of_object(s, Field::TaskState, h);
    let creator = of_object(s, Field::TaskCreator, h);
    let slots = of_object(s, Field::TaskSlots, h);
    let finish = of_object(s, Field::TaskFinish, h);
    let output = of_object(s, Field::TaskOutput, h);
    let is = of_object(s, Field::Kind, h) == names::TASK;
    is & ((1 <= state)
        & ((state <= names::TASK_DESTROYED) & ((slots <= 16) & ((finish <= 1) & (output <= 1)))))
        | !is & ((state == 0) & ((creator == 0) & ((slots == 0) & ((finish == 0) & (output == 0)))))
}

pub fn event_part(s: &Memory, h: u64) -> bool
    ensures { result ≡ test (event_part (was s.now) h) }
{
    let state = of_object(s, Field::EventState, h);
    let kind = of_object(s, Field::EventType, h);
    let payload = of_object(s, Field::EventPayload, h);
    let tally = of_object(s, Field::EventTally, h);
    let links = of_object(s, Field::EventCount, h);
    let is = of_object(s, Field::Kind, h) == names::EVENT;
    let fired = (state == names::FIRED) | ((state == names::DESTROYED_FIRED) | (payload == 0));
    let counts = kind == names::COUNTED;
    let counted = counts & is_link_count(links) | !counts & (links == 0);
    let tallied = (tally <= names::TOP_TALLY) & (((kind == names::LATCH) | (tally == 0)) & counted);
    let typed = is_event_type(kind) & (is_payload(s, payload) & (fired & tallied));
    is & ((1 <= state) & ((state <= names::DESTROYED_FIRED) & typed))
        | !is & ((state == 0) & ((kind == 0) & ((payload == 0) & ((tally == 0) & (links == 0)))))
}

pub fn block_part(s: &Memory, h: u64) -> bool
    ensures { result ≡ test (block_part (was s.now) h) }
{
    let state = of_object(s, Field::BlockState, h);
    let creator = of_object(s, Field::BlockCreator, h);
    let held = of_object(s, Field::BlockHeld, h);
    let is = of_object(s, Field::Kind, h) == names::BLOCK;
    let by_task = is_made(s, creator) & (of_object(s, Field::Kind, creator) == names::TASK);
    let made = (h == 1) & (creator == 0) | by_task;
    is & ((1 <= state) & ((state <= names::BLOCK_DESTROYED) & ((held <= 1) & made)))
        | !is & ((state == 0) & ((creator == 0) & (held == 0)))
}

fn is_object(s: &Memory, h: u64) -> bool
    ensures { result ≡ test (object (was s.now) h) }
{
    let kind = of_object(s, Field::Kind, h);
    let of_kind = !(1 <= h) | (1 <= kind) & (kind <= 4);
    of_kind & (template_part(s, h) & (task_part(s, h) & (event_part(s, h) & block_part(s, h))))
}

// Every object is of some kind, with that kind's fields in range and the others zero.
pub fn are_objects(v: &View) -> bool
    ensures { let s = was v.now.s.now in result ≡ test (each (s Objects 0 + 1) (object s)) }
{
    let s = v.s;
    all_below(v.objects + 1, |h| is_object(s, h))
}

pub fn are_roots(s: &Memory) -> bool
    ensures { result ≡ test (roots (was s.now)) }
{
    let slot = (of_slot(s, Field::SlotMode, 32) == names::RW)
        & ((1 <= of_slot(s, Field::SlotMark, 32)) & (of_slot(s, Field::SlotPayload, 32) == 1));
    let plain = (of_object(s, Field::TaskFinish, 2) == 0)
        & ((of_object(s, Field::TaskOutput, 2) == 0) & slot);
    let task = (of_object(s, Field::TaskCreator, 2) == 0)
        & ((of_object(s, Field::TaskSlots, 2) == 1) & plain);
    (of_object(s, Field::Kind, 1) == names::BLOCK)
        & ((of_object(s, Field::BlockCreator, 1) == 0)
            & ((of_object(s, Field::Kind, 2) == names::TASK) & task))
}

fn is_latch(s: &Memory, e: u64) -> bool
    ensures { result ≡ test (latch_at (was s.now) e) }
{
    let state = of_object(s, Field::EventState, e);
    let fired = (state == names::FIRED) | (state == names::DESTROYED_FIRED);
    let latch = (of_object(s, Field::Kind, e) == names::EVENT)
        & ((of_object(s, Field::EventType, e) == names::LATCH) & fired);
    !latch | (of_object(s, Field::EventTally, e) == names::EVEN_TALLY)
}

// A fired latch has the count 0.
pub fn are_latches(v: &View) -> bool
    ensures { result ≡ test (latches (was v.now.s.now)) }
{
    let s = v.s;
    all_below(v.objects + 1, |e| is_latch(s, e))
}
