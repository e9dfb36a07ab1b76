#![tactic(auto)]

// What a session says at any place: past a field's places nothing stands, and the answer is 0, as the rules have it; and the code
// of what the rules say of objects, links and holds (Reading.antt), one function each. Internal. The memory's words may be any numbers,
// and its type tells its length; but `find`, `has_slot`, `holds_block`, `is_full` and `is_held` are named in docs/, so that these, and
// what they call, take longer memory as well: callers have shown its length.
mod counted;
mod eights;
mod finding;
mod holders;
mod holds;
mod objects;

ghost use Rattle.std.specs.Prelude.{◌≡◌, ◌≤◌, length};
ghost use Rattle.session.specs.Names.{object_places, link_places, slot_places};
ghost use Rattle.session.specs.Table.{words, size, at};
ghost use Rattle.session.specs.Lent.{was};

pub use counted::{has_its_count, serves_last};
pub use eights::{any_of_eight, next_where};
pub use finding::{find, next_with};
pub use holders::next_holder;
pub use holds::{holds_block, is_held};
pub use objects::{
    drops, has_event_slot, has_slot, is_fired_sticky, is_full, is_gone, is_kind, is_live, is_made,
    is_running, is_undelivered, is_user_event, overflows, task_slots,
};
use session::{Field, Memory, names};

// The number in a field of so many places at any place at all, 0 past its end.
fn of<const PLACES: usize>(s: &[u64], f: Field, i: u64) -> u64
    requires { (words ≤ length s.now) × (size f ≡ PLACES) }
    ensures { result ≡ was s.now f i }
{
    if PLACES as u64 <= i {
        return 0;
    }
    session::get(s, f, i as usize)
}

// The same in a field of objects.
pub fn of_object(s: &[u64], f: Field, h: u64) -> u64
    requires { (words ≤ length s.now) × (size f ≡ object_places) }
    ensures { result ≡ was s.now f h }
{
    of::<{ names::OBJECT_PLACES }>(s, f, h)
}

// In a field of slots.
pub fn of_slot(s: &Memory, f: Field, i: u64) -> u64
    requires { size f ≡ slot_places }
    ensures { result ≡ was s.now f i }
{
    of::<{ names::SLOT_PLACES }>(s, f, i)
}

// At slot j of handle h, whatever these are.
pub fn of_slot_at(s: &Memory, f: Field, h: u64, j: u64) -> u64
    requires { size f ≡ slot_places }
    ensures { result ≡ was s.now f (at h j) }
{
    if names::MOST_OBJECTS < h {
        return 0;
    }
    if names::SLOT_PLACES as u64 <= j {
        return 0;
    }
    of_slot(s, f, h * 16 + j)
}

// In a field of links.
pub fn of_link(s: &Memory, f: Field, l: u64) -> u64
    requires { size f ≡ link_places }
    ensures { result ≡ was s.now f l }
{
    of::<{ names::LINK_PLACES }>(s, f, l)
}
