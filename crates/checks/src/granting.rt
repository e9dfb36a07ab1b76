// What a grant's checks look at: the task by value, and the holds of other tasks. Internal.
ghost use Rattle.std.specs.Prelude.{◌≡◌, ◌≤◌, ◌<◌, length};
ghost use Rattle.session.specs.Table.{read, at, words};
ghost use Rattle.session.specs.Lent.{was};
ghost use Rattle.session.specs.declared.Field.TheVariants.{Objects, TaskState, TaskSlots};
ghost use Rattle.session.specs.Names.{resolved, most_objects, slot_places};
ghost use Rattle.rules.specs.Formula.{test, Holds};
ghost use Rattle.rules.specs.Sound.{sound};
ghost use Rattle.checks.specs.GrantChecks.{slot_at, task_at, is_claim, has_claim, clash, maker_clash, hold_clash, blocks_remain};
ghost use Rattle.checks.specs.GrantChecks.{slots_free};

use crate::handles::{are_blocks_left, first_words};
use crate::holders::Holders;
use reading::of_object;
use rules::modes::is_stopped;
use rules::{Slot, Task};
use session::{Field, Memory, WORDS, names};

// The slot at place i of the fields of slots.
fn slot_at(s: &Memory, i: usize) -> Slot
    requires { i < slot_places }
    ensures { result ≡ slot_at (was s.now) i }
{
    Slot {
        mode: session::get(s, Field::SlotMode, i),
        mark: session::get(s, Field::SlotMark, i),
        payload: session::get(s, Field::SlotPayload, i),
    }
}

fn slot_of(s: &Memory, t: usize, j: usize) -> Slot
    requires { (t ≤ most_objects) × (j < 16) }
    ensures { result ≡ slot_at (was s.now) (at t j) }
{
    slot_at(s, t * 16 + j)
}

// A task with its sixteen slots.
fn task_at(s: &Memory, t: usize) -> Task
    requires { t ≤ most_objects }
    ensures { result ≡ task_at (was s.now) t }
{
    let mut slots = [Slot {
        mode: 0,
        mark: 0,
        payload: 0,
    }; 16];
    for j in 0..16 {
        slots[j] = slot_of(s, t, j);
    }
    Task {
        state: session::get(s, Field::TaskState, t),
        creator: session::get(s, Field::TaskCreator, t),
        count: session::get(s, Field::TaskSlots, t),
        finish: session::get(s, Field::TaskFinish, t),
        output: session::get(s, Field::TaskOutput, t),
        slots,
    }
}

// Whether a pre-slot asks for a block in a mode that some hold stops: none stops RO.
#[tactic(auto, using(rules::specs::Bools::tests))]
fn is_claim(slot: Slot) -> bool
    ensures { result ≡ test (is_claim slot) }
{
    (slot.payload != 0) && (slot.mode != names::RO)
}

fn has_claim(s: &Memory, t: u64) -> bool
    requires { (t ≤ most_objects) × (read s.now TaskSlots t ≤ 16) }
    ensures { result ≡ test (has_claim (was s.now) t) }
{
    let count = of_object(s, Field::TaskSlots, t);
    for j in 0..count {
        if is_claim(slot_of(s, t as usize, j as usize)) {
            return true;
        }
    }
    false
}

// Whether the hold of another task stops what the slot asks for.
#[tactic(auto, using(rules::specs::Bools::tests))]
fn clashes(slot: Slot, hold: Slot) -> bool
    ensures { result ≡ test (clash slot hold) }
{
    (hold.payload == slot.payload) && is_stopped(slot.mode, hold.mode)
}

// Whether another task holds the slot's block since it made it, and so stops what the slot asks for.
#[tactic(auto, using(rules::specs::Bools::tests))]
fn maker_clashes(s: &Memory, t: u64, slot: Slot) -> bool
    ensures { result ≡ test (maker_clash (was s.now) t slot) }
{
    (slot.payload != 0)
        && (of_object(s, Field::BlockHeld, slot.payload) == 1)
        && (of_object(s, Field::BlockCreator, slot.payload) != t)
        && is_stopped(slot.mode, names::RW)
}

// Whether the hold at place k stops what the slot asks for. Place 0 is no task's, and stands for the hold from the
// creation of the slot's block.
#[tactic(auto, using(rules::specs::Bools::tests))]
fn hold_clashes(s: &Memory, t: u64, slot: Slot, k: usize) -> bool
    requires { k < slot_places }
    ensures { result ≡ test (hold_clash (was s.now) t slot k) }
{
    if k == 0 {
        return maker_clashes(s, t, slot);
    }
    (session::get(s, Field::SlotMark, k) == names::HELD) && clashes(slot, slot_at(s, k))
}

// Whether the block of each pre-slot remains: none is doomed or destroyed. Of a session in longer memory, as the tests of `objects` are.
pub fn blocks_remain(s: &[u64], t: u64) -> bool
    requires { words ≤ length s.now }
    ensures { result ≡ test (blocks_remain (was s.now) t) }
{
    are_blocks_left(first_words(s), t)
}

// Whether no hold of another task stops what the pre-slots ask for: a scan over the pre-slots and, for each that asks
// for more than reading, over the holds, left at the first pair in conflict. A resolved task holds nothing, so every hold is
// another task's.
fn is_unstopped(s: &Memory, t: u64) -> bool
    requires { Holds (sound (read s.now)) × (t ≤ read s.now Objects 0) × (read s.now TaskState t ≡ resolved) }
    ensures { result ≡ test (slots_free (was s.now) t) }
{
    if !has_claim(s, t) {
        return true;
    }
    let task = task_at(s, t as usize);
    let mut holders = Holders::new();
    'scan: {
        for j in 0..task.count {
            let slot = task.slots[j as usize];
            if !is_claim(slot) {
                continue;
            }
            let mut q: usize = 0;
            // a while: the holders found so far tell the next place
            while q < holders.places() {
                let stopped = hold_clashes(s, t, slot, holders.place_at(q));
                if stopped {
                    break 'scan false;
                }
                q = holders.next_place(s, q);
                holders.find_more(s, q);
            }
        }
        true
    }
}

// The same of a session in longer memory, as docs/ name it.
pub fn is_free(s: &[u64], t: u64) -> bool
    requires { (words ≤ length s.now) × Holds (sound (read s.now)) × (t ≤ read s.now Objects 0) × (read s.now TaskState t ≡ resolved) }
    ensures { result ≡ test (slots_free (was s.now) t) }
{
    let Some(s) = s.first_chunk::<WORDS>() else {
        unreachable!()
    };
    is_unstopped(s, t)
}
