// What the checks say of one object, for any handle. Internal: the session is the memory; `objects` asks the same of longer memory.
ghost use Rattle.std.specs.Prelude.{◌≡◌, ◌≤◌, ◌+◌, Bool, length};
ghost use Rattle.session.specs.declared.Field.TheVariants.{Objects, TaskState, SlotMode};
ghost use Rattle.session.specs.Names.{task, event, block, resolved, most_objects};
ghost use Rattle.session.specs.Table.{read, at, words};
ghost use Rattle.session.specs.Lent.{was};
ghost use Rattle.rules.specs.Formula.{Formula, Holds, test, Formula.◌≐◌, Formula.◌≼◌, Formula.◌or◌, Formula.◌then◌};
ghost use Rattle.rules.specs.Sound.{sound};
ghost use Rattle.rules.specs.Reading.{made, is_kind, is_user_event, has_slot};
ghost use Rattle.rules.specs.Checks.{or_null, remains};
ghost use Rattle.checks.specs.CheckParts.{is_count};
ghost use Rattle.checks.specs.GrantChecks.{blocks_remain};

use reading::{is_gone, is_kind, is_made, of_object, of_slot_at, task_slots};
use session::{Field, Memory, WORDS, names};

// Null, or a handle that the test says yes to.
#[tactic(auto, using(rules::specs::Bools::tests))]
fn or_null<F: Fn(u64) -> bool>(h: u64, says: F) -> bool
    requires { F.IsAlwaysCallable says }
    ensures { (f : Formula) → ((r : Bool) → F.post says h r → r ≡ test f) → result ≡ test (h ≐ 0 or f) }
{
    (h == 0) || says(h)
}

#[tactic(auto, using(rules::specs::Bools::tests))]
pub fn is_made_or_null(s: &Memory, h: u64) -> bool
    ensures { result ≡ test (or_null (was s.now) (made (was s.now)) h) }
{
    or_null(h, |k| is_made(s, k))
}

#[tactic(auto, using(rules::specs::Bools::tests))]
pub fn is_block_or_null(s: &Memory, h: u64) -> bool
    ensures { result ≡ test (or_null (was s.now) (is_kind (was s.now) block) h) }
{
    or_null(h, |k| is_kind(s, names::BLOCK, k))
}

#[tactic(auto, using(rules::specs::Bools::tests))]
pub fn remains_or_null(s: &Memory, h: u64) -> bool
    ensures { result ≡ test (or_null (was s.now) (remains (was s.now)) h) }
{
    or_null(h, |k| !is_gone(s, k))
}

// What a dependence may come from: null, a block or an event.
#[tactic(auto, using(rules::specs::Bools::tests))]
pub fn is_source(s: &Memory, h: u64) -> bool
    ensures { result ≡ test (or_null (was s.now) (λ k. is_kind (was s.now) block k or is_kind (was s.now) event k) h) }
{
    or_null(
        h,
        |k| is_kind(s, names::BLOCK, k) || is_kind(s, names::EVENT, k),
    )
}

// Whether an object is an event of a type that a call may name. In a sound session that is any event but an output.
pub fn is_user_event(s: &Memory, h: u64) -> bool
    requires { Holds (sound (read s.now)) }
    ensures { result ≡ test (is_user_event (was s.now) h) }
{
    (of_object(s, Field::Kind, h) == names::EVENT)
        & (of_object(s, Field::EventType, h) != names::OUTPUT)
}

// Whether such an event has a slot of that number: 0, and 1 if it is a latch.
pub fn has_event_slot(s: &Memory, e: u64, j: u64) -> bool
    requires { Holds (is_user_event (read s.now) e) }
    ensures { result ≡ test (has_slot (was s.now) e j) }
{
    (j == 0) | ((j == 1) & (of_object(s, Field::EventType, e) == names::LATCH))
}

// Whether a task or such an event has a slot of that number.
pub fn has_slot(s: &Memory, h: u64, j: u64) -> bool
    requires { Holds (is_kind (read s.now) task h or is_user_event (read s.now) h) }
    ensures { result ≡ test (has_slot (was s.now) h j) }
{
    if is_kind(s, names::TASK, h) {
        return j < of_object(s, Field::TaskSlots, h);
    }
    has_event_slot(s, h, j)
}

// What a dependence may lead to: a task, or an event of a type that users make.
#[tactic(auto, using(rules::specs::Bools::tests))]
pub fn is_destination(s: &Memory, h: u64) -> bool
    requires { Holds (sound (read s.now)) }
    ensures { result ≡ test (is_kind (was s.now) task h or is_user_event (was s.now) h) }
{
    is_kind(s, names::TASK, h) || is_user_event(s, h)
}

// Whether slot j of h, where h is a task, is unclaimed.
#[tactic(auto, using(rules::specs::Bools::tests))]
pub fn is_unclaimed(s: &Memory, h: u64, j: u64) -> bool
    ensures { result ≡ test (is_kind (was s.now) task h then was s.now SlotMode (at h j) ≐ 0) }
{
    !is_kind(s, names::TASK, h) || (of_slot_at(s, Field::SlotMode, h, j) == 0)
}

// What may be destroyed: anything but an output event.
#[tactic(auto, using(rules::specs::Bools::tests))]
pub fn is_destroyable(s: &Memory, h: u64) -> bool
    requires { Holds (sound (read s.now)) }
    ensures { result ≡ test (is_kind (was s.now) event h then is_user_event (was s.now) h) }
{
    !is_kind(s, names::EVENT, h) || is_user_event(s, h)
}

// Whether h, where it is a task, is waiting or resolved.
#[tactic(auto, using(rules::specs::Bools::tests))]
pub fn is_idle(s: &Memory, h: u64) -> bool
    ensures { result ≡ test (is_kind (was s.now) task h then was s.now TaskState h ≼ resolved) }
{
    !is_kind(s, names::TASK, h) || (of_object(s, Field::TaskState, h) <= names::RESOLVED)
}

// Whether a template admits a count of pre-slots.
#[tactic(auto, using(rules::specs::Bools::tests))]
pub fn is_count(s: &Memory, template: u64, n: u64) -> bool
    ensures { result ≡ test (is_count (was s.now) template n) }
{
    let count = task_slots(s, template, n);
    let known = of_object(s, Field::TemplateCount, template);
    (count <= 16) && ((known == names::UNKNOWN_COUNT) || (known == count))
}

// Whether n more objects can be made.
pub fn has_room(s: &Memory, n: u64) -> bool
    requires { n ≤ most_objects }
    ensures { result ≡ test (was s.now Objects 0 + n ≼ most_objects) }
{
    session::get(s, Field::Objects, 0) <= names::MOST_OBJECTS - n
}

// Whether the block of each pre-slot remains: none is doomed or destroyed.
pub fn are_blocks_left(s: &Memory, t: u64) -> bool
    ensures { result ≡ test (blocks_remain (was s.now) t) }
{
    let count = of_object(s, Field::TaskSlots, t);
    for j in 0..count {
        if !remains_or_null(s, of_slot_at(s, Field::SlotPayload, t, j)) {
            return false;
        }
    }
    true
}

// The session in the first words of longer memory.
pub fn first_words(s: &[u64]) -> &Memory
    requires { words ≤ length s.now }
    ensures { read result.now ≡ read s.now }
{
    let Some(first) = s.first_chunk::<WORDS>() else {
        unreachable!()
    };
    first
}
