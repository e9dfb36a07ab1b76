// The rules about slots and the links that lead to them. Internal: callers have shown the rules before.
ghost use Rattle.std.specs.Prelude.{◌≡◌, ◌+◌, ◌<◌, ◌≤◌};
ghost use Rattle.session.specs.Names.{most_objects, most_links, slot_places};
ghost use Rattle.session.specs.Table.{read};
ghost use Rattle.session.specs.Lent.{was};
ghost use Rattle.session.specs.declared.Field.TheVariants.{Objects, Links, LinkTarget, LinkSlot};
ghost use Rattle.rules.specs.Formula.{test, Formula.each};
ghost use Rattle.sound.specs.Row.{Row};
ghost use Rattle.sound.specs.LinkOf.{Low, last_link, linked_by, paid_by, claimed_by, unclaimed_by, slot_by, slot_at, slots_at};
ghost use Rattle.sound.specs.LinkOf.{single};

use crate::passes::all_below;
use crate::places::is_payload;
use crate::unused::is_no_slot;
use crate::view::View;
use reading::{of_link, of_object, of_slot};
use session::{Field, Memory, names};

// Notes link l at the slot that it leads to.
fn note_link(s: &Memory, row: &mut [u16; names::SLOT_PLACES], l: u64)
    requires { (1 ≤ l) × (read s.now LinkTarget l ≤ most_objects) × (read s.now LinkSlot l < 16)
        × Row row.old slot_places (last_link (read s.now) l) × (l ≤ most_links) }
    ensures { Row row.new slot_places (last_link (was s.now) (l + 1)) }
{
    let target = of_link(s, Field::LinkTarget, l);
    let slot = of_link(s, Field::LinkSlot, l);
    if of_object(s, Field::Kind, target) == names::TASK {
        let i = (target * 16 + slot) as usize;
        row[i] = l as u16;
    }
}

// Notes each link at the slot that it leads to: for each slot of a task the last link that leads to it, or 0.
pub fn note_links(v: &View, row: &mut [u16; names::SLOT_PLACES])
    requires low { Low (read v.now.s.now) }
    requires none { Row row.old slot_places (λ p. 0) }
    ensures { let s = was v.now.s.now in Row row.new slot_places (last_link s (s Links 0 + 1)) }
{
    let s = v.s;
    for l in 1..v.links + 1 {
        note_link(s, row, l);
    }
}

// A session, with the last link that leads to each slot of a task. In two bytes each: of slots there are 8,208, and eight bytes each
// would take half of a small thread's stack.
#[derive(Clone, Copy)]
pub struct LastLinks<'a> {
    pub v: View<'a>,
    pub last: &'a [u16; names::SLOT_PLACES],
    ghost noted: { Row last.now slot_places (last_link (read v.s.now) (read v.s.now Links 0 + 1)) },
}

impl LastLinks<'_> {
    // No later link leads to the slot of a task that link l leads to.
    fn is_single(&self, l: u64) -> bool
        requires { let s = read self.now.v.s.now in (1 ≤ l) × (s LinkTarget l ≤ most_objects) × (s LinkSlot l < 16) }
        ensures { result ≡ test (single (was self.now.v.s.now) l) }
    {
        let s = self.v.s;
        let target = of_link(s, Field::LinkTarget, l);
        let slot = of_link(s, Field::LinkSlot, l);
        if of_object(s, Field::Kind, target) != names::TASK {
            return true;
        }
        let i = (target * 16 + slot) as usize;
        u64::from(self.last[i]) == l
    }

    // At most one link leads to a slot of a task. From link 1 on, so no `all_below`: `is_single` is not asked of the null link.
    pub fn are_single(&self) -> bool
        requires { Low (read self.now.v.s.now) }
        ensures { let s = was self.now.v.s.now in result ≡ test (each (s Links 0 + 1) (single s)) }
    {
        let mut ok = true;
        for l in 1..self.v.links + 1 {
            ok = self.is_single(l) & ok;
        }
        ok
    }

    fn is_slot(&self, h: u64, j: u64) -> bool
        requires { (h ≤ most_objects) × (j < 16) }
        ensures { result ≡ test (slot_at (was self.now.v.s.now) h j) }
    {
        let i = (h * 16 + j) as usize;
        let slot = Slot {
            s: self.v.s,
            m: u64::from(self.last[i]),
            h,
            j,
        };
        slot.is_slot_by()
    }

    fn are_slots_of(&self, h: u64) -> bool
        requires { h ≤ most_objects }
        ensures { result ≡ test (slots_at (was self.now.v.s.now) h) }
    {
        all_below(16, |j| self.is_slot(h, j))
    }

    // Every slot is as it should be.
    pub fn are_slots(&self) -> bool
        ensures { let s = was self.now.v.s.now in result ≡ test (each (s Objects 0 + 1) (slots_at s)) }
    {
        all_below(self.v.objects + 1, |h| self.are_slots_of(h))
    }
}

// Slot j of object h, with link m, the last that leads to it: 0, the null link, if none does, as `last_link` says.
#[derive(Clone, Copy)]
struct Slot<'a> {
    s: &'a Memory,
    m: u64,
    h: u64,
    j: u64,
    ghost in_range: { (h ≤ most_objects) × (j < 16) },
}

impl Slot<'_> {
    // It is unsatisfied exactly if the link is not delivered.
    fn is_linked_by(&self) -> bool
        ensures { let a = self.now in result ≡ test (linked_by (was a.s.now) a.m a.h a.j) }
    {
        let s = self.s;
        let empty = of_slot(s, Field::SlotMark, self.h * 16 + self.j) == 0;
        let waits = (1 <= self.m) & !(of_link(s, Field::LinkState, self.m) == names::DELIVERED);
        (of_object(s, Field::TaskState, self.h) == names::TASK_DESTROYED)
            | (!empty | waits) & (!waits | empty)
    }

    // If it is satisfied, and the link is delivered, it has that source's payload.
    fn is_paid_by(&self) -> bool
        ensures { let a = self.now in result ≡ test (paid_by (was a.s.now) a.m a.h a.j) }
    {
        let s = self.s;
        let i = self.h * 16 + self.j;
        let payload = of_slot(s, Field::SlotPayload, i);
        let source = of_link(s, Field::LinkSource, self.m);
        let came = (1 <= self.m) & (of_link(s, Field::LinkState, self.m) == names::DELIVERED);
        let same = payload == of_object(s, Field::EventPayload, source);
        !(1 <= of_slot(s, Field::SlotMark, i)) | (!came | same)
    }

    fn is_claimed_by(&self) -> bool
        ensures { let a = self.now in result ≡ test (claimed_by (was a.s.now) a.m a.h a.j) }
    {
        let s = self.s;
        let i = self.h * 16 + self.j;
        let mode = of_slot(s, Field::SlotMode, i);
        let mark = of_slot(s, Field::SlotMark, i);
        let payload = of_slot(s, Field::SlotPayload, i);
        let by = self.is_linked_by() & self.is_paid_by();
        let filled = is_payload(s, payload) & ((!(mark == 0) | (payload == 0)) & by);
        (1 <= mode) & ((mode <= 4) & ((mark <= names::HELD) & filled))
    }

    fn is_unclaimed_by(&self) -> bool
        ensures { let a = self.now in result ≡ test (unclaimed_by (was a.s.now) a.m a.h a.j) }
    {
        let s = self.s;
        let i = self.h * 16 + self.j;
        let mode = of_slot(s, Field::SlotMode, i);
        let mark = of_slot(s, Field::SlotMark, i);
        let payload = of_slot(s, Field::SlotPayload, i);
        (mode == 0) & ((mark == 0) & ((payload == 0) & (self.m == 0)))
    }

    // It is as it should be.
    fn is_slot_by(&self) -> bool
        ensures { let a = self.now in result ≡ test (slot_by (was a.s.now) a.m a.h a.j) }
    {
        let s = self.s;
        let is_task = of_object(s, Field::Kind, self.h) == names::TASK;
        let n = of_object(s, Field::TaskSlots, self.h);
        let there = is_task & (self.j < n);
        if there {
            return self.is_unclaimed_by() | self.is_claimed_by();
        }
        is_no_slot(s, self.h * 16 + self.j)
    }
}
