// Firing an event, and the state of its open links.
ghost use Rattle.std.specs.Prelude.{◌≡◌, ◌+◌, ◌≤◌, ◌<◌, true};
ghost use Rattle.session.specs.Names.{most_objects, most_links, link_places};
ghost use Rattle.session.specs.Table.{read, put};
ghost use Rattle.session.specs.Lent.{was, Becomes};
ghost use Rattle.session.specs.declared.Field.TheVariants.{Links, LinkState};
ghost use Rattle.rules.specs.Effects.{fire_one};
ghost use Rattle.effects.specs.OpenLinks.{link_set, open_links_set, NoMoreLinks, Passed};

use session::{Field, Memory, names};

// The last place from which on eight links have room.
const LAST_EIGHT: usize = names::LINK_PLACES - 8;

// Whether eight links from l on are there and none is from event e.
fn past_others(s: &Memory, e: u64, l: usize) -> bool
    ensures { result ≡ true → Passed (was s.now) e l (l + 8) }
{
    l <= LAST_EIGHT && !reading::any_of_eight(l, |i| session::get(s, Field::LinkSource, i) == e)
}

// Gives link l the state v if it is open and from event e. Internal: callers have shown the link.
fn set_open_link(s: &mut Memory, e: u64, v: u64, l: usize)
    requires { l < link_places }
    ensures { Becomes s.old s.new (put (was s.old) LinkState l (link_set (was s.old) e v l)) }
{
    if session::get(s, Field::LinkSource, l) == e
        && session::get(s, Field::LinkState, l) == names::LINK_OPEN
    {
        session::set(s, Field::LinkState, l, v);
    }
}

// Gives the open links of event e the state v. Most links are from others: they are passed eight at a time, and no store is
// made. The step is one or eight, which no range is. Internal: callers have shown the count of links, and that no link stands
// past the count.
pub fn set_open_links(s: &mut Memory, e: u64, v: u64)
    requires { (read s.old Links 0 ≤ most_links) × NoMoreLinks (read s.old) }
    ensures { Becomes s.old s.new (open_links_set (was s.old) e v) }
{
    let n = session::get(s, Field::Links, 0) as usize;
    let mut l: usize = 0;
    while l <= n {
        if past_others(s, e, l) {
            l += 8;
        } else {
            set_open_link(s, e, v, l);
            l += 1;
        }
    }
}

// Fires event e with payload p. Internal: callers have shown the handle, the count of links, and that no link stands past the
// count.
pub fn fire_one(s: &mut Memory, e: u64, p: u64)
    requires { (e ≤ most_objects) × (read s.old Links 0 ≤ most_links) × NoMoreLinks (read s.old) }
    ensures { Becomes s.old s.new (fire_one (was s.old) e p) }
{
    let at = e as usize;
    session::set(s, Field::EventState, at, names::FIRED);
    session::set(s, Field::EventPayload, at, p);
    set_open_links(s, e, names::READY);
}
