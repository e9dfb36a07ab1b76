// The rules about blocks and who holds them.
ghost use Rattle.std.specs.Prelude.{◌≡◌, ◌+◌, ◌*◌, ◌≤◌};
ghost use Rattle.session.specs.Names.{most_objects, object_places};
ghost use Rattle.session.specs.Table.{read};
ghost use Rattle.session.specs.Lent.{was};
ghost use Rattle.session.specs.declared.Field.TheVariants.{Objects};
ghost use Rattle.rules.specs.Formula.{test};
ghost use Rattle.rules.specs.Reading.{is_held};
ghost use Rattle.rules.specs.Sound.{block_at, blocks};
ghost use Rattle.sound.specs.Row.{Row};
ghost use Rattle.sound.specs.Held.{held_flag};

use crate::passes::all_below;
use crate::view::View;
use reading::{of_object, of_slot};
use session::{Field, Memory, names};

// Marks the block that slot i holds. A mark is 1 or 0, a number as those of `ancestors` are: `Row` speaks of numbers.
fn mark_held(s: &Memory, row: &mut [u64; names::OBJECT_PLACES], i: u64)
    requires { Row row.old object_places (held_flag (read s.now) i) }
    ensures { Row row.new object_places (held_flag (was s.now) (i + 1)) }
{
    if of_slot(s, Field::SlotMark, i) == names::HELD {
        let payload = of_slot(s, Field::SlotPayload, i);
        if payload <= names::MOST_OBJECTS {
            let b = payload as usize;
            row[b] = 1;
        }
    }
}

fn mark_all_held(v: &View, row: &mut [u64; names::OBJECT_PLACES])
    requires { Row row.old object_places (λ b. 0) }
    ensures { let s = was v.now.s.now in Row row.new object_places (held_flag s (16 * (s Objects 0 + 1))) }
{
    let s = v.s;
    for i in 0..16 * (v.objects + 1) {
        mark_held(s, row, i);
    }
}

// For each block 1 if a slot holds it, else 0.
fn held_marks(v: &View) -> [u64; names::OBJECT_PLACES]
    ensures { let s = was v.now.s.now in Row result object_places (held_flag s (16 * (s Objects 0 + 1))) }
{
    let mut row: [u64; names::OBJECT_PLACES] = [0; names::OBJECT_PLACES];
    mark_all_held(v, &mut row);
    row
}

// A session, with a mark for each block that a slot holds.
#[derive(Clone, Copy)]
struct Held<'a> {
    s: &'a Memory,
    marks: &'a [u64; names::OBJECT_PLACES],
    ghost noted: { Row marks.now object_places (held_flag (read s.now) (16 * (read s.now Objects 0 + 1))) },
}

impl Held<'_> {
    // Whether somebody holds block b, by the marks.
    fn is_held_by(&self, b: u64) -> bool
        requires { b ≤ most_objects }
        ensures { result ≡ test (is_held (was self.now.s.now) b) }
    {
        let s = self.s;
        let made = of_object(s, Field::BlockHeld, b) == 1;
        (self.marks[b as usize] == 1) | made
    }

    fn is_block(&self, b: u64) -> bool
        requires { b ≤ most_objects }
        ensures { result ≡ test (block_at (was self.now.s.now) b) }
    {
        let s = self.s;
        let creator = of_object(s, Field::BlockCreator, b);
        let runs = (1 <= creator) & (of_object(s, Field::TaskState, creator) == names::RUNNING);
        let made = !(of_object(s, Field::BlockHeld, b) == 1) | runs;
        let state = of_object(s, Field::BlockState, b);
        let held = self.is_held_by(b);
        let ends = (!(state == names::DOOMED) | held)
            & (!(state == names::BLOCK_DESTROYED) | !held);
        !(of_object(s, Field::Kind, b) == names::BLOCK) | made & ends
    }
}

// Blocks are held by running makers only; doomed ones are held, destroyed ones are not.
pub fn are_blocks(v: &View) -> bool
    ensures { result ≡ test (blocks (was v.now.s.now)) }
{
    let marks = held_marks(v);
    let held = Held {
        s: v.s,
        marks: &marks,
    };
    all_below(v.objects + 1, |b| held.is_block(b))
}
