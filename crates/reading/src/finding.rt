// Looking for a number in a field of objects. Internal: callers have shown the length and the places.
ghost use Rattle.std.specs.Prelude.{◌≡◌, ◌≤◌, length};
ghost use Rattle.session.specs.Names.{object_places};
ghost use Rattle.session.specs.Table.{words, size};
ghost use Rattle.session.specs.Lent.{was};
ghost use Rattle.reading.specs.Eights.{OrEnd};
ghost use Rattle.reading.specs.Finding.{Found};

use crate::eights::next_where;
use session::Field;

// The first place from `from` on and before `end` that has v in field f, or `end` if there is none.
pub fn find(s: &[u64], f: Field, v: u64, from: usize, end: usize) -> usize
    requires { (words ≤ length s.now) × (size f ≡ object_places) × (from ≤ end) × (end ≤ object_places) }
    ensures { Found (was s.now) f v from end result }
{
    next_where(from, end, |i| session::get(s, f, i) == v).unwrap_or(end)
}

// The same, or nothing if there is none.
pub fn next_with(s: &[u64], f: Field, v: u64, from: usize, end: usize) -> Option<usize>
    requires { (words ≤ length s.now) × (size f ≡ object_places) × (from ≤ end) × (end ≤ object_places) }
    ensures { OrEnd (Found (was s.now) f v from end) end result }
{
    let place = find(s, f, v, from, end);
    if place < end { Some(place) } else { None }
}
