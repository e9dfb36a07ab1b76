// The rules about links, and about the slots that they lead to.
ghost use Rattle.std.specs.Prelude.{◌≡◌, ◌+◌};
ghost use Rattle.session.specs.declared.Field.TheVariants.{Links};
ghost use Rattle.session.specs.Lent.{was};
ghost use Rattle.rules.specs.Formula.{test, count};
ghost use Rattle.rules.specs.Sound.{is_link, link_at, links, link_agrees, is_delivered};

use crate::passes::all_below;
use crate::view::View;
use reading::{has_slot, is_made, is_user_event, of_link, of_object};
use session::{Field, Memory, names};

// A link's state is in range and agrees with its source's.
fn does_link_agree(s: &Memory, l: u64) -> bool
    ensures { result ≡ test (link_agrees (was s.now) l) }
{
    let source = of_link(s, Field::LinkSource, l);
    let state = of_link(s, Field::LinkState, l);
    let event = of_object(s, Field::EventState, source);
    let open = state == names::LINK_OPEN;
    let source_open = event == names::OPEN;
    let cut = state == names::CUT;
    let source_cut = event == names::DESTROYED_UNFIRED;
    let agrees = (!open | source_open)
        & (!source_open | open)
        & ((!cut | source_cut) & (!source_cut | cut));
    (1 <= state) & ((state <= names::CUT) & agrees)
}

// A link leads from an event to a slot that there is, and its state agrees with the event's.
fn is_link(s: &Memory, l: u64) -> bool
    ensures { result ≡ test (is_link (was s.now) l) }
{
    let source = of_link(s, Field::LinkSource, l);
    let target = of_link(s, Field::LinkTarget, l);
    let slot = of_link(s, Field::LinkSlot, l);
    let to = (of_object(s, Field::Kind, target) == names::TASK) | is_user_event(s, target);
    let leads = is_made(s, target) & (to & (has_slot(s, target, slot) & does_link_agree(s, l)));
    is_made(s, source) & ((of_object(s, Field::Kind, source) == names::EVENT) & leads)
}

fn is_link_or_null(s: &Memory, l: u64) -> bool
    ensures { result ≡ test (link_at (was s.now) l) }
{
    (l == 0) | is_link(s, l)
}

pub fn are_links(v: &View) -> bool
    ensures { result ≡ test (links (was v.now.s.now)) }
{
    let s = v.s;
    all_below(v.links + 1, |l| is_link_or_null(s, l))
}

fn is_delivered(s: &Memory, l: u64) -> bool
    ensures { result ≡ test (is_delivered (was s.now) l) }
{
    of_link(s, Field::LinkState, l) == names::DELIVERED
}

// How many links are delivered.
pub fn count_delivered(v: &View) -> u64
    ensures { let s = was v.now.s.now in result ≡ count (s Links 0 + 1) (is_delivered s) }
{
    let s = v.s;
    let mut count: u64 = 0;
    for l in 0..v.links + 1 {
        if is_delivered(s, l) {
            count += 1;
        }
    }
    count
}
