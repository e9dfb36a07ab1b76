// Delivering a link: operation 9.
ghost use Rattle.session.specs.Table.{read};
ghost use Rattle.session.specs.Lent.{was, Becomes};
ghost use Rattle.rules.specs.Formula.{Holds};
ghost use Rattle.rules.specs.Sound.{sound};
ghost use Rattle.rules.specs.Checks.{deliver_checks};
ghost use Rattle.rules.specs.Effects as rules;
ghost use Rattle.laws.specs.Met.{met};

use crate::satisfying::satisfy_either;
use session::{Field, Memory, names};

// A counted event goes with the delivery of the last of its links, l. Internal, as `deliver` is.
fn expire(s: &mut Memory, l: u64)
    requires { Holds (sound (read s.old)) × met (deliver_checks (read s.old) l) }
    ensures { Becomes s.old s.new (rules.expire (was s.old) l) }
{
    if reading::serves_last(s, l) {
        let source = session::get(s, Field::LinkSource, l as usize);
        session::set(
            s,
            Field::EventState,
            source as usize,
            names::DESTROYED_FIRED,
        );
    }
}

// Marks link l as delivered and satisfies its destination, or drops the delivery. Internal, as `deliver` is.
fn bring(s: &mut Memory, l: u64)
    requires { Holds (sound (read s.old)) × met (deliver_checks (read s.old) l) }
    ensures { Becomes s.old s.new (rules.bring (was s.old) l) }
{
    let at = l as usize;
    let d = session::get(s, Field::LinkTarget, at);
    let j = session::get(s, Field::LinkSlot, at);
    let source = session::get(s, Field::LinkSource, at);
    let p = session::get(s, Field::EventPayload, source as usize);
    let n = session::get(s, Field::Dropped, 0);
    let drops = reading::drops(s, d, j);
    session::set(s, Field::LinkState, at, names::DELIVERED);
    if drops {
        session::set(s, Field::Dropped, 0, n + 1);
    } else {
        satisfy_either(s, d, j, p);
    }
}

// 9 deliver (link). Internal: callers have shown a sound session and the checks.
pub fn deliver(s: &mut Memory, l: u64)
    requires { Holds (sound (read s.old)) × met (deliver_checks (read s.old) l) }
    ensures { Becomes s.old s.new (rules.deliver (was s.old) l) }
{
    expire(s, l);
    bring(s, l);
}
