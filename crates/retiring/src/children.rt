// Whether a task made others, and whether one of its descendants is live.
ghost use Rattle.std.specs.Prelude.{◌≡◌, ◌≤◌};
ghost use Rattle.session.specs.Table.{read};
ghost use Rattle.session.specs.Lent.{was};
ghost use Rattle.session.specs.declared.Field.TheVariants.{Objects, TaskCreator};
ghost use Rattle.rules.specs.Formula.{test, Formula.◌and◌};
ghost use Rattle.rules.specs.Reading.{is_live};
ghost use Rattle.rules.specs.Descendants.{under, busy};
ghost use Rattle.retiring.specs.TidyUnderWay.{Tidy};
ghost use Rattle.retiring.specs.Children.{has_child};

use session::{Field, Memory, names};

// Whether task h made one whose state is `last` or an earlier one: a live one up to running, any up to destroyed. Whoever was made by
// h has a higher handle. The step is to the next that h made: looking for both at once, by `next_where`, took half as long again.
// Internal: callers have shown a tidy session and the handle.
fn has_child(s: &Memory, h: u64, last: u64) -> bool
    requires { Tidy (read s.now) × (1 ≤ h) × (h ≤ read s.now Objects 0) }
    ensures { result ≡ test (has_child (was s.now) h last) }
{
    let end = session::get(s, Field::Objects, 0) as usize + 1;
    let mut from = h as usize;
    while let Some(d) = reading::next_with(s, Field::TaskCreator, h, from, end) {
        if session::get(s, Field::TaskState, d) <= last {
            return true;
        }
        from = d + 1;
    }
    false
}

// Whether object d descends from task a: its creator is a, or descends from it, and none that is lower than a does. Internal, as
// `has_child` is.
fn is_below(s: &Memory, d: u64, a: u64) -> bool
    requires { Tidy (read s.now) × (1 ≤ a) × (d ≤ read s.now Objects 0) }
    ensures { result ≡ test (under (was s.now TaskCreator) d d a) }
{
    let c = session::get(s, Field::TaskCreator, d as usize);
    if a < c { is_below(s, c, a) } else { c == a }
}

// Whether d is a live task and descends from task a; an object that is no task has no creator, and is passed first. Internal, as
// `has_child` is.
#[tactic(auto, using(crate::specs::Children::late_dead))]
fn is_live_below(s: &Memory, d: u64, a: u64) -> bool
    requires { Tidy (read s.now) × (1 ≤ a) × (d ≤ read s.now Objects 0) }
    ensures { result ≡ test (is_live (was s.now) d and under (was s.now TaskCreator) d d a) }
{
    if session::get(s, Field::TaskCreator, d as usize) < a {
        return false;
    }
    if names::RUNNING < session::get(s, Field::TaskState, d as usize) {
        return false;
    }
    is_below(s, d, a)
}

// Whether some descendant of task a is live. Internal, as `has_child` is.
fn has_live_below(s: &Memory, a: u64) -> bool
    requires { Tidy (read s.now) × (1 ≤ a) × (a ≤ read s.now Objects 0) }
    ensures { result ≡ test (busy (was s.now) a) }
{
    let n = session::get(s, Field::Objects, 0);
    for d in a..n + 1 {
        if is_live_below(s, d, a) {
            return true;
        }
    }
    false
}

// The same, where the task made one. Internal, as `has_child` is.
pub fn is_busy_above(s: &Memory, a: u64) -> bool
    requires { Tidy (read s.now) × (1 ≤ a) × (a ≤ read s.now Objects 0) }
    ensures { result ≡ test (busy (was s.now) a) }
{
    has_child(s, a, names::RUNNING) || has_live_below(s, a)
}

// The same, where the task most often made none, or has a live child, which is found out sooner. Internal, as `has_child` is.
pub fn is_busy(s: &Memory, a: u64) -> bool
    requires { Tidy (read s.now) × (1 ≤ a) × (a ≤ read s.now Objects 0) }
    ensures { result ≡ test (busy (was s.now) a) }
{
    has_child(s, a, names::TASK_DESTROYED) && is_busy_above(s, a)
}
