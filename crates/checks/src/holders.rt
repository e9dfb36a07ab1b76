// The tasks that hold blocks by their slots, for a scan that goes over their holds several times: they are looked for once, and
// only as far as a scan comes. Internal.
ghost use Rattle.std.specs.Prelude.{◌≡◌, ◌+◌, ◌*◌, ◌/◌, ◌≤◌, ◌<◌, get_or, length};
ghost use Rattle.session.specs.Names.{most_objects, slot_places, object_places};
ghost use Rattle.session.specs.Table.{read, words};
ghost use Rattle.session.specs.Lent.{was};
ghost use Rattle.session.specs.declared.Field.TheVariants.{Objects};
ghost use Rattle.rules.specs.Formula.{Holds};
ghost use Rattle.rules.specs.Sound.{sound};
ghost use Rattle.reading.specs.Holders.{Passed};
ghost use Rattle.checks.specs.HolderList.{Listed, More, is_hold, place_of};

use reading::next_holder;
use session::{Field, names};

// The handles found so far, in order. Handle 0 is always the first, and the last handle the last of a whole list, as if they were
// holders.
#[derive(Drop)]
pub struct Holders {
    handles: [u16; names::OBJECT_PLACES],
    found: usize,
}

impl Holders {
    // Handle 0 alone.
    pub fn new() -> Holders
        ensures { (s : _) → Listed s result.handles result.found }
    {
        Holders {
            handles: [0; names::OBJECT_PLACES],
            found: 1,
        }
    }

    // How many places the holders' slots have.
    pub fn places(&self) -> usize
        requires { self.now.found ≤ object_places }
        ensures { result ≡ 16 * self.now.found }
    {
        16 * self.found
    }

    // One holder more, once number q is past the places of those that there are; none if they go up to the last handle.
    pub fn find_more(&mut self, s: &[u64], q: usize)
        requires { (read s.now Objects 0 ≤ most_objects) × Listed (read s.now) self.old.handles self.old.found
            × (q ≤ 16 * self.old.found) × (words ≤ length s.now) }
        ensures { More (was s.now) self.old.handles self.new.handles self.old.found self.new.found q }
    {
        if q < 16 * self.found {
            return;
        }
        let n = session::get(s, Field::Objects, 0) as usize;
        let last = self.found - 1;
        let from = self.handles[last] as usize + 1;
        if n < from {
            return;
        }
        self.handles[self.found] = next_holder(s, n, from).unwrap_or(n) as u16;
        self.found += 1;
    }

    // Place number q of the holders' slots.
    pub fn place_at(&self, q: usize) -> usize
        requires { (q < slot_places) × (get_or self.now.handles (q / 16) 0 ≤ most_objects) }
        ensures { result ≡ place_of self.now.handles q }
    {
        let i = q / 16;
        16 * self.handles[i] as usize + q % 16
    }

    // The number after q of the place at which the next hold may be: the holder's next slot, or the first one of the next holder.
    pub fn next_place(&self, s: &[u64], q: usize) -> usize
        requires { Holds (sound (read s.now)) × Listed (read s.now) self.now.handles self.now.found × (q < 16 * self.now.found)
            × (words ≤ length s.now) }
        ensures { (result ≤ 16 * self.now.found)
            × Passed (λ i. is_hold (was s.now) (place_of self.now.handles i)) (q + 1) result }
    {
        let i = q / 16;
        let j = q % 16 + 1;
        if (j as u64) < session::get(s, Field::TaskSlots, self.handles[i] as usize) {
            return q + 1;
        }
        16 * (i + 1)
    }
}
