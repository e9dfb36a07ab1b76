// Who holds a block (Reading.antt). Internal: callers have shown the length.
ghost use Rattle.std.specs.Prelude.{◌≡◌, ◌≤◌, ◌<◌, length};
ghost use Rattle.session.specs.Names.{most_objects, slot_places};
ghost use Rattle.session.specs.Table.{read, words};
ghost use Rattle.session.specs.Lent.{was};
ghost use Rattle.session.specs.declared.Field.TheVariants.{Objects};
ghost use Rattle.rules.specs.Formula.{test};
ghost use Rattle.rules.specs.Reading.{slot_holds, holds_made, holds_block, is_held};
ghost use Rattle.reading.specs.Holds.{Active, slots_hold};

use crate::holders::next_holder;
use crate::of_object;
use session::{Field, names};

// Whether the slot at place i holds block b. Internal, as `get` is.
fn slot_holds(s: &[u64], b: u64, i: usize) -> bool
    requires { (words ≤ length s.now) × (i < slot_places) }
    ensures { result ≡ test (slot_holds (was s.now) b i) }
{
    if session::get(s, Field::SlotMark, i) != names::HELD {
        return false;
    }
    session::get(s, Field::SlotPayload, i) == b
}

// Whether some slot of task h holds block b. Internal, as `get` is.
fn task_holds(s: &[u64], b: u64, h: u64) -> bool
    requires { (words ≤ length s.now) × (h ≤ most_objects) }
    ensures { result ≡ test (slots_hold (was s.now) b h) }
{
    for j in 0..16 {
        if slot_holds(s, b, (h * 16 + j) as usize) {
            return true;
        }
    }
    false
}

// Whether task t holds block b since it made it.
fn holds_made(s: &[u64], t: u64, b: u64) -> bool
    requires { words ≤ length s.now }
    ensures { result ≡ test (holds_made (was s.now) t b) }
{
    if of_object(s, Field::BlockHeld, b) != 1 {
        return false;
    }
    of_object(s, Field::BlockCreator, b) == t
}

// Whether task t holds block b, by a slot or since it made the block; past the last handle there is no slot.
pub fn holds_block(s: &[u64], t: u64, b: u64) -> bool
    requires { words ≤ length s.now }
    ensures { result ≡ test (holds_block (was s.now) t b) }
{
    if holds_made(s, t, b) {
        return true;
    }
    if names::MOST_OBJECTS < t {
        return false;
    }
    task_holds(s, b, t)
}

// The same as `task_holds`, with a look at the pre-slots only: no other slot holds. Internal: callers have shown that.
fn holder_holds(s: &[u64], b: u64, h: u64) -> bool
    requires { (words ≤ length s.now) × (h ≤ most_objects) × (h ≤ read s.now Objects 0) × Active (read s.now) }
    ensures { result ≡ test (slots_hold (was s.now) b h) }
{
    let n = session::get(s, Field::TaskSlots, h as usize);
    for j in 0..16 {
        if n <= j {
            return false;
        }
        if slot_holds(s, b, (h * 16 + j) as usize) {
            return true;
        }
    }
    false
}

// Whether somebody holds block b. Internal: callers have shown the length, the handles, and that only the pre-slots of granted
// and running tasks hold.
#[tactic(auto, unfolding(crate::specs::Eights::OrEnd))]
pub fn is_held(s: &[u64], b: u64) -> bool
    requires { (words ≤ length s.now) × (read s.now Objects 0 ≤ most_objects) × (b ≤ most_objects) × Active (read s.now) }
    ensures { result ≡ test (is_held (was s.now) b) }
{
    if session::get(s, Field::BlockHeld, b as usize) == 1 {
        return true;
    }
    let n = session::get(s, Field::Objects, 0) as usize + 1;
    let mut next = next_holder(s, n, 0);
    while let Some(h) = next {
        if holder_holds(s, b, h as u64) {
            return true;
        }
        next = next_holder(s, n, h + 1);
    }
    false
}
