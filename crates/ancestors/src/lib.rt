#![tactic(auto)]

pub mod live;

ghost use Rattle.std.specs.Prelude.{◌≡◌, ◌+◌, ◌≤◌};
ghost use Rattle.session.specs.Names.{most_objects};
ghost use Rattle.session.specs.Table.{read};
ghost use Rattle.session.specs.Lent.{was};
ghost use Rattle.session.specs.declared.Field.TheVariants.{Objects};
ghost use Rattle.rules.specs.Formula.{Formula.never};
ghost use Rattle.rules.specs.Descendants.{busy};
ghost use Rattle.laws.specs.Under.{Falls};
ghost use Rattle.ancestors.specs.Above.{ClosedBut, Above, Shows, busy_below};

use session::{Field, Memory, names};

// Marks the creator of h, its creator and so on, up to a task that is marked already: all above it are then marked too.
// Internal: callers have shown that creators are lower, and that marks are closed but for h itself.
fn mark_above(s: &Memory, marks: &mut [u64; names::OBJECT_PLACES], h: u64)
    requires { (read s.now Objects 0 ≤ most_objects) × Falls (read s.now)
        × (h ≤ read s.now Objects 0)
        × ClosedBut (read s.now) marks.old h }
    ensures { Above (was s.now) marks.old marks.new h }
{
    let c = session::get(s, Field::TaskCreator, h as usize);
    if c == 0 {
        return;
    }
    if marks[c as usize] == 1 {
        return;
    }
    marks[c as usize] = 1;
    mark_above(s, marks, c);
}

// Marks the ancestors of h if it is live. Internal, as `mark_above` is.
fn mark_live(s: &Memory, marks: &mut [u64; names::OBJECT_PLACES], h: u64)
    requires { (read s.now Objects 0 ≤ most_objects) × Falls (read s.now)
        × (h ≤ read s.now Objects 0)
        × Shows marks.old (busy_below (read s.now) h) }
    ensures { Shows marks.new (busy_below (was s.now) (h + 1)) }
{
    if reading::is_live(s, h) {
        mark_above(s, marks, h);
    }
}

// Marks every task that has a live descendant. Internal: callers lend marks that are all 0.
#[tactic(auto, using(crate::specs::Above::shows_none, crate::specs::Above::shows_all))]
pub fn mark_all(s: &Memory, marks: &mut [u64; names::OBJECT_PLACES])
    requires { (read s.now Objects 0 ≤ most_objects) × Falls (read s.now)
        × Shows marks.old (λ a. never) }
    ensures { Shows marks.new (busy (was s.now)) }
{
    let n = session::get(s, Field::Objects, 0);
    for h in 0..=n {
        mark_live(s, marks, h);
    }
}

// For each handle 1 if some descendant of it is a live task, else 0. Internal: callers have shown that creators are lower.
pub fn busy_marks(s: &Memory) -> [u64; names::OBJECT_PLACES]
    requires { (read s.now Objects 0 ≤ most_objects) × Falls (read s.now) }
    ensures { Shows result (busy (was s.now)) }
{
    let mut marks: [u64; names::OBJECT_PLACES] = [0; names::OBJECT_PLACES];
    mark_all(s, &mut marks);
    marks
}
