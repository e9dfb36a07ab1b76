// Making templates, tasks, events and blocks: operations 1 to 4, and 13.
ghost use Rattle.std.specs.Prelude.{◌≡◌, ◌≤◌, ◌+◌};
ghost use Rattle.session.specs.Names.{most_objects};
ghost use Rattle.session.specs.Table.{read};
ghost use Rattle.session.specs.Lent.{was};
ghost use Rattle.session.specs.declared.Field.TheVariants.{Objects};
ghost use Rattle.rules.specs.Formula.{Holds};
ghost use Rattle.rules.specs.Sound.{sound};
ghost use Rattle.session.specs.Names.{counted};
ghost use Rattle.rules.specs.Checks.{task_slots, template_checks, task_checks, event_checks, block_checks, counted_checks};
ghost use Rattle.rules.specs.Effects.{new, new_template, new_event, new_task, make_task, new_block};
ghost use Rattle.laws.specs.Met.{met};
ghost use Rattle.effects.specs.Made.{Made};
ghost use Rattle.effects.specs.FirstValues.{first_tally, first_state};

use session::{Field, Memory, names};

// A new object of this kind, which gets the next handle, the answer. Internal: callers have shown the room.
fn new_object(s: &mut Memory, kind: u64) -> u64
    requires { read s.old Objects 0 + 1 ≤ most_objects }
    ensures { Made s.old s.new (new (was s.old) (was s.old Objects 0 + 1) kind) (was s.old Objects 0 + 1) result }
{
    let h = session::get(s, Field::Objects, 0) + 1;
    session::set(s, Field::Objects, 0, h);
    session::set(s, Field::Kind, h as usize, kind);
    h
}

// 1 template (caller, count of pre-slots or 17). Internal: callers have shown a sound session and the checks.
pub fn template(s: &mut Memory, caller: u64, n: u64) -> u64
    requires { Holds (sound (read s.old)) × met (template_checks (read s.old) caller n) }
    ensures { Made s.old s.new (new_template (was s.old) n) (was s.old Objects 0 + 1) result }
{
    let h = new_object(s, names::TEMPLATE);
    let at = h as usize;
    session::set(s, Field::TemplateState, at, names::FRESH);
    session::set(s, Field::TemplateCount, at, n);
    h
}

// The tally of an event of this type as it is made: a latch counts from 0.
fn first_tally(ty: u64) -> u64
    ensures { result ≡ first_tally ty }
{
    if ty == names::LATCH {
        names::EVEN_TALLY
    } else {
        0
    }
}

// A new event of type ty, and a counted one's count, 0 for others. Internal, as `new_object` is.
fn new_event(s: &mut Memory, ty: u64, count: u64) -> u64
    requires { read s.old Objects 0 + 1 ≤ most_objects }
    ensures { Made s.old s.new (new_event (was s.old) (was s.old Objects 0 + 1) ty count) (was s.old Objects 0 + 1) result }
{
    let h = new_object(s, names::EVENT);
    let at = h as usize;
    session::set(s, Field::EventState, at, names::OPEN);
    session::set(s, Field::EventType, at, ty);
    session::set(s, Field::EventTally, at, first_tally(ty));
    session::set(s, Field::EventCount, at, count);
    h
}

// The state of a task with n pre-slots as it is made.
fn first_state(n: u64) -> u64
    ensures { result ≡ first_state n }
{
    if n == 0 {
        names::RESOLVED
    } else {
        names::WAITING
    }
}

// A new task with n pre-slots. Internal, as `new_object` is.
fn new_task(s: &mut Memory, caller: u64, n: u64, finish: u64, out: u64) -> u64
    requires { read s.old Objects 0 + 1 ≤ most_objects }
    ensures { Made s.old s.new
        (new_task (was s.old) caller (was s.old Objects 0 + 1) n finish out) (was s.old Objects 0 + 1) result }
{
    let h = new_object(s, names::TASK);
    let at = h as usize;
    session::set(s, Field::TaskState, at, first_state(n));
    session::set(s, Field::TaskCreator, at, caller);
    session::set(s, Field::TaskSlots, at, n);
    session::set(s, Field::TaskFinish, at, finish);
    session::set(s, Field::TaskOutput, at, out);
    h
}

// 2 task (caller, template, count, finish, output): with output 1 its output event comes after it. Internal, as `template` is.
pub fn task(s: &mut Memory, caller: u64, tm: u64, n: u64, finish: u64, out: u64) -> u64
    requires { Holds (sound (read s.old)) × met (task_checks (read s.old) caller tm n finish out) }
    ensures { Made s.old s.new
        (make_task (was s.old) caller (task_slots (was s.old) tm n) finish out)
        (was s.old Objects 0 + 1) result }
{
    let slots = reading::task_slots(s, tm, n);
    let h = new_task(s, caller, slots, finish, out);
    if out == 1 {
        new_event(s, names::OUTPUT, 0);
    }
    h
}

// 3 event (caller, type). Internal, as `template` is.
pub fn event(s: &mut Memory, caller: u64, ty: u64) -> u64
    requires { Holds (sound (read s.old)) × met (event_checks (read s.old) caller ty) }
    ensures { Made s.old s.new (new_event (was s.old) (was s.old Objects 0 + 1) ty 0) (was s.old Objects 0 + 1) result }
{
    new_event(s, ty, 0)
}

// 13 counted (caller, count): an event that goes once so many links from it are delivered. Internal, as `template` is.
pub fn counted(s: &mut Memory, caller: u64, n: u64) -> u64
    requires { Holds (sound (read s.old)) × met (counted_checks (read s.old) caller n) }
    ensures { Made s.old s.new (new_event (was s.old) (was s.old Objects 0 + 1) counted n) (was s.old Objects 0 + 1) result }
{
    new_event(s, names::COUNTED, n)
}

// 4 block (caller, hold): with hold 1 its creator holds it. Internal, as `template` is.
pub fn block(s: &mut Memory, caller: u64, hold: u64) -> u64
    requires { Holds (sound (read s.old)) × met (block_checks (read s.old) caller hold) }
    ensures { Made s.old s.new (new_block (was s.old) caller hold) (was s.old Objects 0 + 1) result }
{
    let h = new_object(s, names::BLOCK);
    let at = h as usize;
    session::set(s, Field::BlockState, at, names::FRESH);
    session::set(s, Field::BlockCreator, at, caller);
    session::set(s, Field::BlockHeld, at, hold);
    h
}
