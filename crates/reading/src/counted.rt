// The links from a counted event: how many were made, and how many of these are delivered. Internal: callers
// have shown that the count of links is in range.
ghost use Rattle.std.specs.Prelude.{◌≡◌, ◌+◌, ◌≤◌};
ghost use Rattle.session.specs.Names.{most_links, link_places};
ghost use Rattle.session.specs.Table.{read};
ghost use Rattle.session.specs.Lent.{was};
ghost use Rattle.session.specs.declared.Field.TheVariants.{Links};
ghost use Rattle.rules.specs.Formula.{test, count};
ghost use Rattle.rules.specs.Reading.{leads_from, served_from, has_its_count, lacks_one, serves_last};

use crate::{of_link, of_object};
use session::{Field, Memory, names};

// The links from an event: made, and of these delivered.
#[derive(Clone, Copy)]
struct FromEvent {
    made: u64,
    delivered: u64,
}

fn leads_from(s: &Memory, e: u64, l: u64) -> bool
    ensures { result ≡ test (leads_from (was s.now) e l) }
{
    of_link(s, Field::LinkSource, l) == e
}

fn is_served_from(s: &Memory, e: u64, l: u64) -> bool
    ensures { result ≡ test (served_from (was s.now) e l) }
{
    leads_from(s, e, l) & (of_link(s, Field::LinkState, l) == names::DELIVERED)
}

// How many of n links lead from event e, and how many of these are delivered.
#[tactic(auto, using(crate::specs::Loops::count_none, crate::specs::Loops::count_next))]
fn links_from(s: &Memory, n: u64, e: u64) -> FromEvent
    requires { n ≤ most_links }
    ensures made { result.made ≡ count (n + 1) (leads_from (was s.now) e) }
    ensures delivered { result.delivered ≡ count (n + 1) (served_from (was s.now) e) }
    ensures few { result.delivered ≤ link_places }
{
    let mut made: u64 = 0;
    let mut delivered: u64 = 0;
    for l in 0..=n {
        made += u64::from(leads_from(s, e, l));
        delivered += u64::from(is_served_from(s, e, l));
    }
    FromEvent { made, delivered }
}

// Whether e is a counted event that already has its count of links.
pub fn has_its_count(s: &Memory, e: u64) -> bool
    requires { read s.now Links 0 ≤ most_links }
    ensures { result ≡ test (has_its_count (was s.now) e) }
{
    if of_object(s, Field::EventType, e) != names::COUNTED {
        return false;
    }
    let n = session::get(s, Field::Links, 0);
    of_object(s, Field::EventCount, e) <= links_from(s, n, e).made
}

// Whether e is a counted event of whose count of links all but one have been delivered.
fn lacks_one(s: &Memory, e: u64) -> bool
    requires { read s.now Links 0 ≤ most_links }
    ensures { result ≡ test (lacks_one (was s.now) e) }
{
    if of_object(s, Field::EventType, e) != names::COUNTED {
        return false;
    }
    let n = session::get(s, Field::Links, 0);
    links_from(s, n, e).delivered + 1 == of_object(s, Field::EventCount, e)
}

// Whether link l is the last one that its event serves.
pub fn serves_last(s: &Memory, l: u64) -> bool
    requires { read s.now Links 0 ≤ most_links }
    ensures { result ≡ test (serves_last (was s.now) l) }
{
    lacks_one(s, of_link(s, Field::LinkSource, l))
}
