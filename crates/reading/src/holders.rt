// The tasks that may hold blocks by their slots, looked for eight handles at a time: most handles are not theirs. Internal:
// callers have shown the length and the handles.
ghost use Rattle.std.specs.Prelude.{◌≡◌, ◌≤◌, ◌<◌, length};
ghost use Rattle.session.specs.Names.{object_places};
ghost use Rattle.session.specs.Table.{words};
ghost use Rattle.session.specs.Lent.{was};
ghost use Rattle.rules.specs.Formula.{test};
ghost use Rattle.reading.specs.Eights.{OrEnd};
ghost use Rattle.reading.specs.Holders.{First, is_holder};

use crate::eights::next_where;
use session::{Field, names};

// Whether task h may hold blocks by its slots.
fn is_holder(s: &[u64], h: usize) -> bool
    requires { (words ≤ length s.now) × (h < object_places) }
    ensures { result ≡ test (is_holder (was s.now) h) }
{
    let state = session::get(s, Field::TaskState, h);
    if state == names::GRANTED {
        return true;
    }
    state == names::RUNNING
}

// The first holder from `from` on and before n.
pub fn next_holder(s: &[u64], n: usize, from: usize) -> Option<usize>
    requires { (words ≤ length s.now) × (from ≤ n) × (n ≤ object_places) }
    ensures { OrEnd (First (is_holder (was s.now)) from n) n result }
{
    next_where(from, n, |h| is_holder(s, h))
}
