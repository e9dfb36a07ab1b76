// Letting go of holds.
ghost use Rattle.std.specs.Prelude.{◌≡◌, ◌+◌, ◌*◌, ◌≤◌, ◌<◌};
ghost use Rattle.session.specs.Names.{most_objects};
ghost use Rattle.session.specs.Table.{read, put};
ghost use Rattle.session.specs.Lent.{was, Becomes};
ghost use Rattle.session.specs.declared.Field.TheVariants.{Objects, BlockHeld, BlockState, SlotMark};
ghost use Rattle.rules.specs.Formula.{Holds, Formula.◌≐◌};
ghost use Rattle.rules.specs.Sound.{sound};
ghost use Rattle.rules.specs.Checks.{release_checks};
ghost use Rattle.rules.specs.Effects.{bury_doomed, let_go, release};
ghost use Rattle.laws.specs.Met.{met};
ghost use Rattle.reading.specs.Holds.{Active};
ghost use Rattle.holding.specs.SweepRows.{row};
ghost use Rattle.holding.specs.Letting.{mark_after, mark_row, slots_let_go, made_row, made_let_go, buried, Unheld, Unmarked};
ghost use Rattle.holding.specs.Letting.{Doomed};

use session::{Field, Memory, names};

// A slot's mark once its task lets go of block b, or of every block where b is 0.
fn mark_after(mark: u64, payload: u64, b: u64) -> u64
    ensures { result ≡ mark_after mark payload b }
{
    if mark != names::HELD {
        return mark;
    }
    if b == 0 {
        return names::SATISFIED;
    }
    if payload == b {
        return names::SATISFIED;
    }
    mark
}

// Slot j of task t lets go of block b, or of any where b is 0. Internal: callers have shown the slot.
fn drop_slot(s: &mut Memory, t: u64, b: u64, j: u64)
    requires { (t ≤ most_objects) × (j < 16) }
    ensures { Becomes s.old s.new (put (was s.old) SlotMark (t * 16 + j) (mark_row t b (t * 16 + j) (row (was s.old) (t * 16 + j)))) }
{
    let i = (t * 16 + j) as usize;
    let mark = session::get(s, Field::SlotMark, i);
    let payload = session::get(s, Field::SlotPayload, i);
    session::set(s, Field::SlotMark, i, mark_after(mark, payload, b));
}

// The slots of task t let go of block b, or of all where b is 0. Internal, as `drop_slot` is.
fn drop_slots(s: &mut Memory, t: u64, b: u64)
    requires { t ≤ most_objects }
    ensures { Becomes s.old s.new (slots_let_go (was s.old) t b) }
{
    for j in 0..16 {
        drop_slot(s, t, b, j);
    }
}

// Block b is no longer held from its creation if t made it. Internal: callers have shown the handle.
fn drop_made(s: &mut Memory, t: u64, b: u64)
    requires { b ≤ most_objects }
    ensures { Becomes s.old s.new (put (was s.old) BlockHeld b (made_row t b (row (was s.old) b))) }
{
    let at = b as usize;
    if session::get(s, Field::BlockCreator, at) == t {
        session::set(s, Field::BlockHeld, at, 0);
    }
}

// No block that t made is held from its creation. Internal: callers have shown that places past the count of objects are empty.
#[tactic(auto, unfolding(reading::specs::Eights::OrEnd))]
fn drop_all_made(s: &mut Memory, t: u64)
    requires { (read s.old Objects 0 ≤ most_objects) × Unheld (read s.old) }
    ensures { Becomes s.old s.new (made_let_go (was s.old) t) }
{
    let n = session::get(s, Field::Objects, 0) as usize;
    let mut next = Some(0);
    while let Some(b) = next {
        drop_made(s, t, b as u64);
        next = reading::next_with(s, Field::BlockCreator, t, b + 1, n + 1);
    }
}

// Block b is destroyed if it is doomed and nobody holds it. Internal, as `is_held` is.
fn bury(s: &mut Memory, b: u64)
    requires { (read s.old Objects 0 ≤ most_objects) × (b ≤ most_objects) × Active (read s.old) }
    ensures { Becomes s.old s.new (put (was s.old) BlockState b (buried (was s.old) b)) }
{
    if session::get(s, Field::BlockState, b as usize) == names::DOOMED {
        if reading::is_held(s, b) {
            return;
        }
        session::set(s, Field::BlockState, b as usize, names::BLOCK_DESTROYED);
    }
}

// Every doomed block that nobody holds is destroyed. Internal, as `drop_all_made` is.
#[tactic(auto, unfolding(reading::specs::Eights::OrEnd))]
fn bury_all(s: &mut Memory)
    requires { (read s.old Objects 0 ≤ most_objects) × Unmarked (read s.old) × Active (read s.old) }
    ensures { Becomes s.old s.new (bury_doomed (was s.old)) }
{
    let n = session::get(s, Field::Objects, 0) as usize;
    let mut next = Some(0);
    while let Some(b) = next {
        bury(s, b as u64);
        next = reading::next_with(s, Field::BlockState, names::DOOMED, b + 1, n + 1);
    }
}

// Task t lets go of block b. Internal: callers have shown the handles, that doomed blocks are held, and that only
// the pre-slots of granted and running tasks hold.
pub fn let_go_block(s: &mut Memory, t: u64, b: u64)
    requires { (read s.old Objects 0 ≤ most_objects) × (t ≤ most_objects) × (1 ≤ b)
        × (b ≤ most_objects) × Doomed (read s.old) × Active (read s.old) }
    ensures { Becomes s.old s.new (release (was s.old) t b) }
{
    drop_slots(s, t, b);
    drop_made(s, t, b);
    bury(s, b);
}

// Task t lets go of every block. Internal: callers have shown the handles, and that places past the count of objects are empty.
pub fn let_go_all(s: &mut Memory, t: u64)
    requires { (read s.old Objects 0 ≤ most_objects) × (t ≤ most_objects) × Unheld (read s.old)
        × Unmarked (read s.old) × Active (read s.old) }
    ensures { Becomes s.old s.new (let_go (was s.old) t (λ k. 0 ≐ 0)) }
{
    drop_slots(s, t, 0);
    drop_all_made(s, t);
    bury_all(s);
}

// 7 release (caller, block): all the caller's holds of it end. Internal: callers have shown a sound session and the checks.
pub fn release(s: &mut Memory, caller: u64, b: u64)
    requires { Holds (sound (read s.old)) × met (release_checks (read s.old) caller b) }
    ensures { Becomes s.old s.new (release (was s.old) caller b) }
{
    let_go_block(s, caller, b);
}
