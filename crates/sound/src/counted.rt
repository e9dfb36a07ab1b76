// The rule about counted events: no more links than the count, and gone with that many delivered. The links are passed once, noted at
// their sources.
ghost use Rattle.std.specs.Prelude.{◌≡◌, ◌+◌, ◌≤◌};
ghost use Rattle.session.specs.Names.{most_objects, most_links, object_places};
ghost use Rattle.session.specs.Table.{read};
ghost use Rattle.session.specs.Lent.{was};
ghost use Rattle.session.specs.declared.Field.TheVariants.{Objects, Links};
ghost use Rattle.rules.specs.Formula.{test, Formula.some};
ghost use Rattle.rules.specs.Reading.{is_counted};
ghost use Rattle.rules.specs.Sound.{counted_at, counted_events};
ghost use Rattle.sound.specs.Row.{Row};
ghost use Rattle.sound.specs.Sources.{Noted};

use crate::passes::all_below;
use crate::view::View;
use reading::{of_link, of_object};
use session::{Field, Memory, names};

// The links at their sources: made, and of these delivered. In two bytes each: of link numbers there are 2,049.
#[derive(Drop)]
struct Sources {
    made: [u16; names::OBJECT_PLACES],
    served: [u16; names::OBJECT_PLACES],
}

// Whether there is a counted event: if there is none, no link need be looked at.
fn is_any_counted(v: &View) -> bool
    ensures { let s = was v.now.s.now in result ≡ test (some (s Objects 0 + 1) (is_counted s)) }
{
    let s = v.s;
    !all_below(
        v.objects + 1,
        |e| of_object(s, Field::EventType, e) != names::COUNTED,
    )
}

// Notes link l at its source: one made, and one delivered if it is.
fn note_source(s: &Memory, sources: &mut Sources, l: u64)
    requires few { l ≤ most_links }
    requires noted { Noted (read s.now) sources.old.made sources.old.served l }
    ensures { Noted (was s.now) sources.new.made sources.new.served (l + 1) }
{
    let source = of_link(s, Field::LinkSource, l);
    let state = of_link(s, Field::LinkState, l);
    if source <= names::MOST_OBJECTS {
        let e = source as usize;
        sources.made[e] += 1;
        if state == names::DELIVERED {
            sources.served[e] += 1;
        }
    }
}

// Notes each link at its source.
fn note_sources(v: &View, sources: &mut Sources)
    requires { Row sources.old.made object_places (λ e. 0) × Row sources.old.served object_places (λ e. 0) }
    ensures { let s = was v.now.s.now in Noted s sources.new.made sources.new.served (s Links 0 + 1) }
{
    let s = v.s;
    for l in 0..v.links + 1 {
        note_source(s, sources, l);
    }
}

// A counted event has no more links than its count, and is gone if so many are delivered.
fn is_counted(s: &Memory, sources: &Sources, e: u64) -> bool
    requires few { e ≤ most_objects }
    requires noted { Noted (read s.now) sources.now.made sources.now.served (read s.now Links 0 + 1) }
    ensures { result ≡ test (counted_at (was s.now) e) }
{
    let i = e as usize;
    let count = of_object(s, Field::EventCount, e);
    let gone = names::DESTROYED_UNFIRED <= of_object(s, Field::EventState, e);
    let made = u64::from(sources.made[i]);
    let served = u64::from(sources.served[i]);
    let kept = (made <= count) & (!(served == count) | gone);
    !(of_object(s, Field::EventType, e) == names::COUNTED) | kept
}

pub fn are_counted(v: &View) -> bool
    ensures { result ≡ test (counted_events (was v.now.s.now)) }
{
    if !is_any_counted(v) {
        return true;
    }
    let mut sources = Sources {
        made: [0; names::OBJECT_PLACES],
        served: [0; names::OBJECT_PLACES],
    };
    note_sources(v, &mut sources);
    let s = v.s;
    all_below(v.objects + 1, |e| is_counted(s, &sources, e))
}
