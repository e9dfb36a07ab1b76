// The rule that holds do not conflict. Internal: callers have shown the rules before. `Holders` stays a clause: what it says of the row
// grows with each slot, so a type that carried it would have the slot in every contract all the same.
ghost use Rattle.std.specs.Prelude.{◌≡◌, ℕ, ◌+◌, ◌*◌, ◌<◌, ◌≤◌, get_or};
ghost use Rattle.session.specs.Table.{read};
ghost use Rattle.session.specs.Lent.{was};
ghost use Rattle.session.specs.declared.Field.TheVariants.{SlotMark};
ghost use Rattle.session.specs.Names.{held, most_objects, object_places, slot_places};
ghost use Rattle.rules.specs.Formula.{test};
ghost use Rattle.rules.specs.Sound.{clash_made, compatible_at, compatible};
ghost use Rattle.sound.specs.Row.{Row};
ghost use Rattle.sound.specs.HolderTable.{Holders, joined, is_other, cell, cells, clashes};
ghost use Rattle.sound.specs.RulesInOrder.{IsHeld, AreHeld};

use crate::view::View;
use reading::{of_object, of_slot};
use rules::modes::conflicts;
use session::{Field, Memory, names};

// A place for each handle and each of the four modes.
const CELLS: usize = names::OBJECT_PLACES * 4;

// The hold of slot i conflicts with the hold of the task that made its block.
fn clashes_with_maker(s: &Memory, i: u64) -> bool
    ensures { result ≡ test (clash_made (was s.now) i) }
{
    let block = of_slot(s, Field::SlotPayload, i);
    let mode = of_slot(s, Field::SlotMode, i);
    let other = !(of_object(s, Field::BlockCreator, block) == i / 16);
    (of_object(s, Field::BlockHeld, block) == 1) & (other & conflicts(mode, names::RW))
}

// The holder noted once task u holds too: 0 for nobody, and a number past every handle for more than one, as `joined` says. With numbers
// `is_other` is two comparisons; with an enum it would be a `match`, a branch in the pass.
fn join(w: u64, u: u64) -> u64
    ensures { result ≡ joined w u }
{
    if w == 0 {
        return u;
    }
    if w == u {
        return u;
    }
    names::OBJECT_PLACES as u64
}

// Whether another task than t holds block b in mode c + 1, by the holders noted.
fn is_other(row: &[u64; CELLS], b: u64, c: u64, t: u64) -> bool
    requires { (b < object_places) × (c < 4) }
    ensures { result ≡ is_other (get_or row.now (cell b c) 0) t }
{
    let i = (b * 4 + c) as usize;
    let w = row[i];
    !(w == 0) & !(w == t)
}

// Whether the hold of slot i conflicts with that of an earlier slot.
fn does_clash(s: &Memory, row: &[u64; CELLS], i: u64) -> bool
    requires { (i < slot_places) × IsHeld (read s.now) i × Holders (read s.now) row.now i }
    ensures { result ≡ test (clashes (was s.now) i) }
{
    let b = of_slot(s, Field::SlotPayload, i);
    let mode = of_slot(s, Field::SlotMode, i);
    let t = i / 16;
    let rw = conflicts(mode, names::RW) & is_other(row, b, 1, t);
    let ew = conflicts(mode, names::EW) & is_other(row, b, 2, t);
    let constant = conflicts(mode, names::CONST) & is_other(row, b, 3, t);
    rw | (ew | constant)
}

fn is_compatible(s: &Memory, row: &[u64; CELLS], i: u64) -> bool
    requires { (i < slot_places) × (read s.now SlotMark i ≡ held → IsHeld (read s.now) i)
        × Holders (read s.now) row.now i }
    ensures { result ≡ test (compatible_at (was s.now) i) }
{
    if of_slot(s, Field::SlotMark, i) != names::HELD {
        return true;
    }
    !does_clash(s, row, i) & !clashes_with_maker(s, i)
}

// Notes the holder of the block that slot i holds.
fn note_held(s: &Memory, row: &mut [u64; CELLS], i: u64)
    requires { (i < slot_places) × (read s.now SlotMark i ≡ held) × IsHeld (read s.now) i
        × Holders (read s.now) row.old i }
    ensures { Holders (was s.now) row.new (i + 1) }
{
    let b = of_slot(s, Field::SlotPayload, i);
    let mode = of_slot(s, Field::SlotMode, i);
    let at = (b * 4 + (mode - 1)) as usize;
    row[at] = join(row[at], i / 16);
}

fn note_holder(s: &Memory, row: &mut [u64; CELLS], i: u64)
    requires { (i < slot_places) × (read s.now SlotMark i ≡ held → IsHeld (read s.now) i)
        × Holders (read s.now) row.old i }
    ensures { Holders (was s.now) row.new (i + 1) }
{
    if of_slot(s, Field::SlotMark, i) == names::HELD {
        note_held(s, row, i);
    }
}

fn are_compatible_by(v: &View, row: &mut [u64; CELLS]) -> bool
    requires held { AreHeld (read v.now.s.now) }
    requires none { Row row.old cells (λ p. 0) }
    ensures { result ≡ test (compatible (was v.now.s.now)) }
{
    let s = v.s;
    let mut ok = true;
    for i in 0..16 * (v.objects + 1) {
        ok = is_compatible(s, row, i) & ok;
        note_holder(s, row, i);
    }
    ok
}

// No two holds of different tasks conflict.
pub fn are_compatible(v: &View) -> bool
    requires { AreHeld (read v.now.s.now) }
    ensures { result ≡ test (compatible (was v.now.s.now)) }
{
    let mut row: [u64; CELLS] = [0; CELLS];
    are_compatible_by(v, &mut row)
}
