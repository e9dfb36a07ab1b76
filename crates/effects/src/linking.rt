// Dependences, operation 5: a slot claimed, and a link made or the slot satisfied.
ghost use Rattle.std.specs.Prelude.{◌≡◌, ◌≤◌, ◌<◌, ◌+◌};
ghost use Rattle.session.specs.Table.{read};
ghost use Rattle.session.specs.Lent.{was, Becomes};
ghost use Rattle.session.specs.declared.Field.TheVariants.{Links, Kind};
ghost use Rattle.session.specs.Names.{task, most_objects, most_links};
ghost use Rattle.rules.specs.Formula.{Holds};
ghost use Rattle.rules.specs.Sound.{sound};
ghost use Rattle.rules.specs.Checks.{dependence_checks};
ghost use Rattle.rules.specs.Effects as rules;
ghost use Rattle.laws.specs.Met.{met};
ghost use Rattle.effects.specs.Made.{Made, link_made};
ghost use Rattle.effects.specs.Linking.{first_link};

use crate::satisfying::satisfy_either;
use session::{Field, Memory, names};

// Claims slot j of task d with a mode; a slot of an event keeps none. Internal: callers have shown the handle and the slot.
fn claim(s: &mut Memory, d: u64, j: u64, mode: u64)
    requires { (d ≤ most_objects) × (read s.old Kind d ≡ task → j < 16) }
    ensures { Becomes s.old s.new (rules.claim (was s.old) d j mode) }
{
    let at = d as usize;
    if session::get(s, Field::Kind, at) == names::TASK {
        session::set(s, Field::SlotMode, at * 16 + j as usize, mode);
    }
}

// The state of a link as it is made, by that of its source.
fn first_link(state: u64) -> u64
    ensures { result ≡ first_link state }
{
    if state == names::FIRED {
        names::READY
    } else {
        names::LINK_OPEN
    }
}

// Makes a link from event source to slot j of d. Internal: callers have shown the handle and the room.
fn new_link(s: &mut Memory, source: u64, d: u64, j: u64) -> u64
    requires { (source ≤ most_objects) × (read s.old Links 0 < most_links) }
    ensures { Made s.old s.new (rules.new_link (was s.old) source d j) (was s.old Links 0 + 1) result }
{
    let state = first_link(session::get(s, Field::EventState, source as usize));
    let l = session::get(s, Field::Links, 0) + 1;
    let at = l as usize;
    session::set(s, Field::Links, 0, l);
    session::set(s, Field::LinkSource, at, source);
    session::set(s, Field::LinkTarget, at, d);
    session::set(s, Field::LinkSlot, at, j);
    session::set(s, Field::LinkState, at, state);
    l
}

// 5 dependence (caller, source, destination, slot, mode); the answer is the link made, 0 if there is none, as the C interface has
// it. Internal: callers have shown a sound session and the checks.
pub fn dependence(s: &mut Memory, caller: u64, source: u64, d: u64, j: u64, mode: u64) -> u64
    requires { Holds (sound (read s.old)) × met (dependence_checks (read s.old) caller source d j mode) }
    ensures { Made s.old s.new (rules.depend (was s.old) source d j mode) (link_made (was s.old) source) result }
{
    let kind = session::get(s, Field::Kind, source as usize);
    claim(s, d, j, mode);
    if kind == names::EVENT {
        new_link(s, source, d, j)
    } else {
        satisfy_either(s, d, j, source);
        0
    }
}
