// The counts of the last line. Internal: what the memory holds may be anything.
ghost use Rattle.std.specs.Prelude.{◌≡◌, ℕ, ◌≤◌, ◌<◌, Bool};
ghost use Rattle.session.specs.Names.{object_places, link_places};
ghost use Rattle.session.specs.Lent.{was};
ghost use Rattle.rules.specs.Formula.{Formula, test, count};
ghost use Rattle.rules.specs.LastLine.{live_tasks, undelivered_links};

use session::{Field, Memory, names};

// At how many places before the end `holds` answers yes.
fn count_below<F: Fn(u64) -> bool>(end: u64, holds: F) -> u64
    requires { (i : ℕ) → i < end → F.pre holds i }
    ensures answer { (f : ℕ → Formula) → ((i : ℕ) (r : Bool) → i < end → F.post holds i r → r ≡ test (f i)) → result ≡ count end f }
    ensures few { result ≤ end }
{
    let mut found = 0;
    for i in 0..end {
        // a branch: few places hold, and a sum would make the code of the test poorer
        if holds(i) {
            found += 1;
        }
    }
    found
}

// The live tasks. Memory that says that there are more objects than it has places for has none past those.
pub fn live_tasks(s: &Memory) -> u64
    ensures answer { result ≡ live_tasks (was s.now) }
    ensures few { result ≤ object_places }
{
    let last = session::get(s, Field::Objects, 0).min(names::MOST_OBJECTS);
    count_below(last + 1, |h| reading::is_live(s, h))
}

// The undelivered links, in the same way.
pub fn undelivered_links(s: &Memory) -> u64
    ensures answer { result ≡ undelivered_links (was s.now) }
    ensures few { result ≤ link_places }
{
    let last = session::get(s, Field::Links, 0).min(names::MOST_LINKS);
    count_below(last + 1, |l| reading::is_undelivered(s, l))
}
