// Whether no satisfied slot has a link still to come. Internal: callers have shown that the memory holds a sound session, so
// that each link leads to a place.
ghost use Rattle.std.specs.Prelude.{◌≡◌, ◌+◌};
ghost use Rattle.session.specs.Table.{read};
ghost use Rattle.session.specs.Lent.{was};
ghost use Rattle.rules.specs.Formula.{Holds, test};
ghost use Rattle.rules.specs.Sound.{sound, settled};
ghost use Rattle.sheet.specs.Settled.{link_settled, Leads};

use session::{Field, Memory, names};

// Whether link l is delivered, leads to an event, or to a slot that is not satisfied.
fn is_link_settled(s: &Memory, l: u64) -> bool
    requires { Leads (read s.now) l }
    ensures { result ≡ test (link_settled (was s.now) l) }
{
    if session::get(s, Field::LinkState, l as usize) == names::DELIVERED {
        return true;
    }
    let target = session::get(s, Field::LinkTarget, l as usize);
    let slot = session::get(s, Field::LinkSlot, l as usize);
    if session::get(s, Field::TaskSlots, target as usize) <= slot {
        return true;
    }
    session::get(s, Field::SlotMark, (target * 16 + slot) as usize) == 0
}

// Looks at each link once, where the rule goes by slots.
pub fn is_settled(s: &Memory) -> bool
    requires { Holds (sound (read s.now)) }
    ensures { result ≡ test (settled (was s.now)) }
{
    let links = session::get(s, Field::Links, 0);
    for l in 0..=links {
        if !is_link_settled(s, l) {
            return false;
        }
    }
    true
}
