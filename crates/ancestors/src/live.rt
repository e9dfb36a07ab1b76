// Looking for live tasks from a handle down, eight handles at a time: most handles are not theirs.
ghost use Rattle.std.specs.Prelude.{◌≡◌, ◌+◌, ◌≤◌, ◌<◌, length};
ghost use Rattle.session.specs.Names.{most_objects, object_places};
ghost use Rattle.session.specs.Table.{read, words};
ghost use Rattle.session.specs.Lent.{was};
ghost use Rattle.session.specs.declared.Field.TheVariants.{Objects};
ghost use Rattle.rules.specs.Formula.{test};
ghost use Rattle.ancestors.specs.Live.{Stated, live_state, LastOf};

use reading::any_of_eight;
use session::{Field, Memory, WORDS, names};

// Whether the state at h is a live task's. Internal: callers have shown the handle.
fn is_live_state(s: &Memory, h: usize) -> bool
    requires { h < object_places }
    ensures { result ≡ test (live_state (was s.now) h) }
{
    let state = session::get(s, Field::TaskState, h);
    if state == 0 {
        return false;
    }
    state <= names::RUNNING
}

// The last live task up to the handle `high`.
fn last_live_of(s: &Memory, high: u64) -> Option<u64>
    requires { (read s.now Objects 0 ≤ most_objects) × Stated (read s.now) × (high ≤ read s.now Objects 0) }
    ensures { LastOf (was s.now) high result }
{
    let mut top = high;
    // a step of eight that ends at a test, which is no range
    while 8 <= top && !any_of_eight((top - 7) as usize, |i| is_live_state(s, i)) {
        top -= 8;
    }
    for h in (1..=top).rev() {
        if reading::is_live(s, h) {
            return Some(h);
        }
    }
    None
}

// The same of a session in longer memory. Internal: callers have shown the length, the handle, and that tasks have a state.
pub fn last_live(s: &[u64], high: u64) -> Option<u64>
    requires { (words ≤ length s.now) × (read s.now Objects 0 ≤ most_objects) × Stated (read s.now) × (high ≤ read s.now Objects 0) }
    ensures { LastOf (was s.now) high result }
{
    let Some(s) = s.first_chunk::<WORDS>() else {
        unreachable!()
    };
    last_live_of(s, high)
}
