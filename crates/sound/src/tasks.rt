// The rules about tasks. Internal: callers have shown the rules before.
ghost use Rattle.std.specs.Prelude.{◌≡◌, ℕ, ◌+◌, ◌<◌, ◌≤◌};
ghost use Rattle.session.specs.Names.{most_objects};
ghost use Rattle.session.specs.Table.{read};
ghost use Rattle.session.specs.Lent.{was};
ghost use Rattle.session.specs.declared.Field.TheVariants.{Objects, TaskSlots};
ghost use Rattle.rules.specs.Formula.{test, Formula.each};
ghost use Rattle.laws.specs.Under.{Falls};
ghost use Rattle.ancestors.specs.Above.{Shows};
ghost use Rattle.sound.specs.Marks.{Shows-prop};
ghost use Rattle.rules.specs.Sound.{creator, creator_at, creators, held_slot, state_at, states};
ghost use Rattle.rules.specs.Sound.{output_of, output_at, output_state, outputs};
ghost use Rattle.rules.specs.Descendants.{busy};

use crate::passes::all_below;
use crate::view::View;
use reading::{is_full, is_made, of_object};
use session::{Field, Memory, names};

fn is_creator(s: &Memory, t: u64) -> bool
    ensures { result ≡ test (creator (was s.now) t) }
{
    let creator = of_object(s, Field::TaskCreator, t);
    let state = of_object(s, Field::TaskState, creator);
    let active = (state == names::RUNNING) | (state == names::ENDED);
    let is_task = of_object(s, Field::Kind, creator) == names::TASK;
    (t == 2) | (1 <= creator) & ((creator < t) & (is_task & active))
}

fn has_creator(s: &Memory, h: u64) -> bool
    ensures { result ≡ test (creator_at (was s.now) h) }
{
    !(of_object(s, Field::Kind, h) == names::TASK) | is_creator(s, h)
}

// Every task but main has a creator, a lower task that is running or ended.
pub fn are_creators(v: &View) -> bool
    ensures { result ≡ test (creators (was v.now.s.now)) }
{
    let s = v.s;
    all_below(v.objects + 1, |h| has_creator(s, h))
}

// A slot is held only by a granted or running task, and by a granted one if it has a block.
fn is_holding(s: &Memory, t: u64, j: u64) -> bool
    requires { (t ≤ most_objects) × (j < 16) }
    ensures { result ≡ test (held_slot (was s.now) t j) }
{
    let state = session::get(s, Field::TaskState, t as usize);
    let mark = session::get(s, Field::SlotMark, (t * 16 + j) as usize);
    let payload = session::get(s, Field::SlotPayload, (t * 16 + j) as usize);
    let held = mark == names::HELD;
    let granted = state == names::GRANTED;
    (!(granted & (1 <= payload)) | held)
        & (!held | (1 <= payload) & (granted | (state == names::RUNNING)))
}

fn are_holding(s: &Memory, t: u64, n: u64) -> bool
    requires { (t ≤ most_objects) × (n ≤ 16) }
    ensures { result ≡ test (each n (held_slot (was s.now) t)) }
{
    all_below(n, |j| is_holding(s, t, j))
}

// A task's state agrees with its slots.
fn is_state(s: &Memory, t: u64) -> bool
    requires { (t ≤ most_objects) × (read s.now TaskSlots t ≤ 16) }
    ensures { result ≡ test (state_at (was s.now) t) }
{
    let n = session::get(s, Field::TaskSlots, t as usize);
    let state = session::get(s, Field::TaskState, t as usize);
    let full = is_full(s, t);
    let settled = (names::RESOLVED <= state) & (state <= names::ENDED);
    let agrees = (!(state == names::WAITING) | !full) & ((!settled | full) & are_holding(s, t, n));
    !(session::get(s, Field::Kind, t as usize) == names::TASK) | agrees
}

pub fn are_states(v: &View) -> bool
    requires { let s = read v.now.s.now in (h : ℕ) → h < s Objects 0 + 1 → s TaskSlots h ≤ 16 }
    ensures { result ≡ test (states (was v.now.s.now)) }
{
    let s = v.s;
    all_below(v.objects + 1, |t| is_state(s, t))
}

// A session, with a mark for each task that has a live descendant.
#[derive(Clone, Copy)]
struct Busy<'a> {
    s: &'a Memory,
    marks: &'a [u64; names::OBJECT_PLACES],
    ghost shown: { Shows marks.now (busy (read s.now)) } by { Shows-prop marks.now (busy (read s.now)) },
}

impl Busy<'_> {
    // Whether some descendant of a task is live, by the marks.
    fn is_busy(&self, t: u64) -> bool
        requires { t ≤ most_objects }
        ensures { result ≡ test (busy (was self.now.s.now) t) }
    {
        self.marks[t as usize] == 1
    }

    // The output event of task t is fired and destroyed as the task's state and its descendants want.
    fn does_output_agree(&self, t: u64) -> bool
        requires { t ≤ most_objects }
        ensures { result ≡ test (output_state (was self.now.s.now) t) }
    {
        let s = self.s;
        let state = of_object(s, Field::TaskState, t);
        let event = of_object(s, Field::EventState, t + 1);
        let fired = event == names::FIRED;
        let plain = of_object(s, Field::TaskFinish, t) == 0;
        let due = (state == names::ENDED) & (plain | !self.is_busy(t));
        let cut = event == names::DESTROYED_UNFIRED;
        let gone = state == names::TASK_DESTROYED;
        (!fired | due)
            & (!due | fired)
            & ((!cut | gone) & (!gone | cut) & !(event == names::DESTROYED_FIRED))
    }

    fn is_output_of(&self, t: u64) -> bool
        requires { t ≤ most_objects }
        ensures { result ≡ test (output_of (was self.now.s.now) t) }
    {
        let s = self.s;
        let kind = of_object(s, Field::EventType, t + 1);
        let agrees = (kind == names::OUTPUT) & self.does_output_agree(t);
        is_made(s, t + 1) & ((of_object(s, Field::Kind, t + 1) == names::EVENT) & agrees)
    }

    fn has_output(&self, h: u64) -> bool
        requires { h ≤ most_objects }
        ensures { result ≡ test (output_at (was self.now.s.now) h) }
    {
        let s = self.s;
        let kind = of_object(s, Field::Kind, h);
        let b = h.saturating_sub(1);
        let of_task = (of_object(s, Field::Kind, b) == names::TASK)
            & (of_object(s, Field::TaskOutput, b) == 1);
        let makes = (kind == names::TASK) & (of_object(s, Field::TaskOutput, h) == 1);
        let is_output = (kind == names::EVENT)
            & (of_object(s, Field::EventType, h) == names::OUTPUT);
        (!makes | self.is_output_of(h)) & (!is_output | of_task)
    }
}

// An output event follows its task, and agrees with it.
pub fn are_outputs(v: &View) -> bool
    requires { Falls (read v.now.s.now) }
    ensures { result ≡ test (outputs (was v.now.s.now)) }
{
    let s = v.s;
    let marks = ancestors::busy_marks(s);
    let busy = Busy { s, marks: &marks };
    all_below(v.objects + 1, |h| busy.has_output(h))
}
