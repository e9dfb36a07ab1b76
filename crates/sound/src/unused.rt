// The rule that unused parts are zero.
ghost use Rattle.std.specs.Prelude.{◌≡◌, ◌≤◌};
ghost use Rattle.session.specs.Names.{most_objects, object_places, link_places};
ghost use Rattle.session.specs.Lent.{was};
ghost use Rattle.rules.specs.Formula.{test, Formula.each};
ghost use Rattle.rules.specs.Sound.{no_link, no_slot, unused, empty_object, unused_object, unused_link, no_slot_of};

use crate::objects::{block_part, event_part, task_part, template_part};
use crate::passes::all_below;
use reading::{of_link, of_object, of_slot};
use session::{Field, Memory, names};

pub fn is_no_slot(s: &Memory, i: u64) -> bool
    ensures { result ≡ test (no_slot (was s.now) i) }
{
    let payload = of_slot(s, Field::SlotPayload, i);
    (of_slot(s, Field::SlotMode, i) == 0) & ((of_slot(s, Field::SlotMark, i) == 0) & (payload == 0))
}

fn are_no_slots(s: &Memory, h: u64) -> bool
    requires { h ≤ most_objects }
    ensures { result ≡ test (each 16 (no_slot_of (was s.now) h)) }
{
    all_below(16, |j| is_no_slot(s, h * 16 + j))
}

fn is_empty(s: &Memory, h: u64) -> bool
    requires { h ≤ most_objects }
    ensures { result ≡ test (empty_object (was s.now) h) }
{
    let parts = event_part(s, h) & (block_part(s, h) & are_no_slots(s, h));
    (of_object(s, Field::Kind, h) == 0) & (template_part(s, h) & (task_part(s, h) & parts))
}

fn is_unused(s: &Memory, h: u64) -> bool
    requires { h ≤ most_objects }
    ensures { result ≡ test (unused_object (was s.now) h) }
{
    if h <= session::get(s, Field::Objects, 0) {
        return true;
    }
    is_empty(s, h)
}

fn are_unused(s: &Memory) -> bool
    ensures { result ≡ test (each object_places (unused_object (was s.now))) }
{
    all_below(names::OBJECT_PLACES as u64, |h| is_unused(s, h))
}

fn is_no_link(s: &Memory, l: u64) -> bool
    ensures { result ≡ test (no_link (was s.now) l) }
{
    let target = of_link(s, Field::LinkTarget, l);
    let ends = (of_link(s, Field::LinkSlot, l) == 0) & (of_link(s, Field::LinkState, l) == 0);
    (of_link(s, Field::LinkSource, l) == 0) & ((target == 0) & ends)
}

fn is_unused_link(s: &Memory, l: u64) -> bool
    ensures { result ≡ test (unused_link (was s.now) l) }
{
    !(session::get(s, Field::Links, 0) < l) | is_no_link(s, l)
}

fn are_unused_links(s: &Memory) -> bool
    ensures { result ≡ test (each link_places (unused_link (was s.now))) }
{
    all_below(names::LINK_PLACES as u64, |l| is_unused_link(s, l))
}

pub fn is_rest_unused(s: &Memory) -> bool
    ensures { result ≡ test (unused (was s.now)) }
{
    is_no_link(s, 0) & (are_unused(s) & are_unused_links(s))
}
