// The tests of `handles` on a session in longer memory. Internal: the checks ask `handles`, and these are there for whoever has a
// slice.
ghost use Rattle.std.specs.Prelude.{◌≡◌, ◌≤◌, ◌+◌, length};
ghost use Rattle.session.specs.declared.Field.TheVariants.{Objects, TaskState, SlotMode};
ghost use Rattle.session.specs.Names.{task, event, block, resolved, most_objects};
ghost use Rattle.session.specs.Table.{read, at, words};
ghost use Rattle.session.specs.Lent.{was};
ghost use Rattle.rules.specs.Formula.{Holds, test, Formula.◌≐◌, Formula.◌≼◌, Formula.◌or◌, Formula.◌then◌};
ghost use Rattle.rules.specs.Sound.{sound};
ghost use Rattle.rules.specs.Reading.{made, is_kind, is_user_event, has_slot};
ghost use Rattle.rules.specs.Checks.{or_null, remains};
ghost use Rattle.checks.specs.CheckParts.{is_count};

use crate::handles::{self, first_words};

pub fn is_made_or_null(s: &[u64], h: u64) -> bool
    requires { words ≤ length s.now }
    ensures { result ≡ test (or_null (was s.now) (made (was s.now)) h) }
{
    handles::is_made_or_null(first_words(s), h)
}

pub fn is_block_or_null(s: &[u64], h: u64) -> bool
    requires { words ≤ length s.now }
    ensures { result ≡ test (or_null (was s.now) (is_kind (was s.now) block) h) }
{
    handles::is_block_or_null(first_words(s), h)
}

pub fn remains_or_null(s: &[u64], h: u64) -> bool
    requires { words ≤ length s.now }
    ensures { result ≡ test (or_null (was s.now) (remains (was s.now)) h) }
{
    handles::remains_or_null(first_words(s), h)
}

// What a dependence may come from: null, a block or an event.
pub fn is_source(s: &[u64], h: u64) -> bool
    requires { words ≤ length s.now }
    ensures { result ≡ test (or_null (was s.now) (λ k. is_kind (was s.now) block k or is_kind (was s.now) event k) h) }
{
    handles::is_source(first_words(s), h)
}

// Whether an object is an event of a type that a call may name. In a sound session that is any event but an output.
pub fn is_user_event(s: &[u64], h: u64) -> bool
    requires { (words ≤ length s.now) × Holds (sound (read s.now)) }
    ensures { result ≡ test (is_user_event (was s.now) h) }
{
    handles::is_user_event(first_words(s), h)
}

// Whether such an event has a slot of that number: 0, and 1 if it is a latch.
pub fn has_event_slot(s: &[u64], e: u64, j: u64) -> bool
    requires { (words ≤ length s.now) × Holds (is_user_event (read s.now) e) }
    ensures { result ≡ test (has_slot (was s.now) e j) }
{
    handles::has_event_slot(first_words(s), e, j)
}

// Whether a task or such an event has a slot of that number.
pub fn has_slot(s: &[u64], h: u64, j: u64) -> bool
    requires { (words ≤ length s.now) × Holds (is_kind (read s.now) task h or is_user_event (read s.now) h) }
    ensures { result ≡ test (has_slot (was s.now) h j) }
{
    handles::has_slot(first_words(s), h, j)
}

// What a dependence may lead to: a task, or an event of a type that users make.
pub fn is_destination(s: &[u64], h: u64) -> bool
    requires { (words ≤ length s.now) × Holds (sound (read s.now)) }
    ensures { result ≡ test (is_kind (was s.now) task h or is_user_event (was s.now) h) }
{
    handles::is_destination(first_words(s), h)
}

// Whether slot j of h, where h is a task, is unclaimed.
pub fn is_unclaimed(s: &[u64], h: u64, j: u64) -> bool
    requires { words ≤ length s.now }
    ensures { result ≡ test (is_kind (was s.now) task h then was s.now SlotMode (at h j) ≐ 0) }
{
    handles::is_unclaimed(first_words(s), h, j)
}

// What may be destroyed: anything but an output event.
pub fn is_destroyable(s: &[u64], h: u64) -> bool
    requires { (words ≤ length s.now) × Holds (sound (read s.now)) }
    ensures { result ≡ test (is_kind (was s.now) event h then is_user_event (was s.now) h) }
{
    handles::is_destroyable(first_words(s), h)
}

// Whether h, where it is a task, is waiting or resolved.
pub fn is_idle(s: &[u64], h: u64) -> bool
    requires { words ≤ length s.now }
    ensures { result ≡ test (is_kind (was s.now) task h then was s.now TaskState h ≼ resolved) }
{
    handles::is_idle(first_words(s), h)
}

// Whether a template admits a count of pre-slots.
pub fn is_count(s: &[u64], template: u64, n: u64) -> bool
    requires { words ≤ length s.now }
    ensures { result ≡ test (is_count (was s.now) template n) }
{
    handles::is_count(first_words(s), template, n)
}

// Whether n more objects can be made.
pub fn has_room(s: &[u64], n: u64) -> bool
    requires { (words ≤ length s.now) × (n ≤ most_objects) }
    ensures { result ≡ test (was s.now Objects 0 + n ≼ most_objects) }
{
    handles::has_room(first_words(s), n)
}
