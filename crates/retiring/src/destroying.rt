// Destroying objects.
ghost use Rattle.std.specs.Prelude.{◌≡◌, ◌+◌, ◌≤◌};
ghost use Rattle.session.specs.Names.{most_objects, most_links};
ghost use Rattle.session.specs.Table.{read};
ghost use Rattle.session.specs.Lent.{was, Becomes};
ghost use Rattle.session.specs.declared.Field.TheVariants.{Objects, Links};
ghost use Rattle.rules.specs.Formula.{Holds};
ghost use Rattle.rules.specs.Reading.{made};
ghost use Rattle.rules.specs.Sound.{sound, outputs};
ghost use Rattle.rules.specs.Checks.{destroy_checks};
ghost use Rattle.rules.specs.Effects.{destroy_event, destroy_task, destroy_block, destroy};
ghost use Rattle.rules.specs.Descendants.{climbed};
ghost use Rattle.rules.specs.Step.{destroy_climbs};
ghost use Rattle.effects.specs.Made.{Made};
ghost use Rattle.effects.specs.OpenLinks.{NoMoreLinks};
ghost use Rattle.retiring.specs.Cutting.{retired, links_cut};
ghost use Rattle.laws.specs.Met.{met};
ghost use Rattle.reading.specs.Holds.{Active};
ghost use Rattle.holding.specs.Letting.{Doomed};
ghost use Rattle.retiring.specs.TidyUnderWay.{Tidy};
ghost use Rattle.retiring.specs.Children.{Childless};
ghost use Rattle.retiring.specs.RetiringParts.{output_destroyed, OutputLow, fate};

use crate::finishing;
use session::{Field, Memory, names};

// The open links of event e are cut; ready ones still deliver. Internal: callers have shown the links' count.
fn cut_links(s: &mut Memory, e: u64)
    requires { (read s.old Links 0 ≤ most_links) × NoMoreLinks (read s.old) }
    ensures { Becomes s.old s.new (links_cut (was s.old) e) }
{
    effects::set_open_links(s, e, names::CUT);
}

// The state of an event once it is destroyed: with the mark whether it had fired.
fn retired_state(state: u64) -> u64
    ensures { result ≡ retired state }
{
    if state == names::FIRED {
        names::DESTROYED_FIRED
    } else {
        names::DESTROYED_UNFIRED
    }
}

// Destroys event e. Internal: callers have shown the handle and the links' count.
fn destroy_event(s: &mut Memory, e: u64)
    requires { (e ≤ most_objects) × (read s.old Links 0 ≤ most_links) × NoMoreLinks (read s.old) }
    ensures { Becomes s.old s.new (destroy_event (was s.old) e) }
{
    let state = session::get(s, Field::EventState, e as usize);
    session::set(s, Field::EventState, e as usize, retired_state(state));
    cut_links(s, e);
}

// Destroys the output event of task t, if it has one. Internal: callers have shown the handles and a tidy session.
fn destroy_output(s: &mut Memory, t: u64)
    requires { (t ≤ most_objects) × Tidy (read s.old) × OutputLow (read s.old) t }
    ensures { Becomes s.old s.new (output_destroyed (was s.old) t) }
{
    if session::get(s, Field::TaskOutput, t as usize) == 1 {
        destroy_event(s, t + 1);
    }
}

// Destroys task t, which never ran and made no task, and fires the finish events that waited for it: the steps climbed, returned with
// the session. Internal: callers have shown the handles, a tidy session and the rule of outputs.
fn destroy_task(s: &mut Memory, t: u64) -> u64
    requires { (t ≤ most_objects) × Tidy (read s.old) × OutputLow (read s.old) t
        × Holds (made (read s.old) t) × Holds (outputs (read s.old)) × Childless (read s.old) t }
    ensures { Made s.old s.new (destroy_task (was s.old) t) (climbed (destroy_task (was s.old) t) t) result }
{
    session::set(s, Field::TaskState, t as usize, names::TASK_DESTROYED);
    destroy_output(s, t);
    finishing::fire_over(s, t, finishing::LEVELS)
}

// The state of block b once it is destroyed: doomed while somebody holds it. Internal, as `is_held` is.
fn fate_of(s: &Memory, b: u64) -> u64
    requires { (read s.now Objects 0 ≤ most_objects) × (b ≤ most_objects) × Active (read s.now) }
    ensures { result ≡ fate (was s.now) b }
{
    if reading::is_held(s, b) {
        names::DOOMED
    } else {
        names::BLOCK_DESTROYED
    }
}

// Destroys block b for task t, which lets go of it first. Internal, as `let_go_block` is.
fn destroy_block(s: &mut Memory, t: u64, b: u64)
    requires { (read s.old Objects 0 ≤ most_objects) × (t ≤ most_objects) × (1 ≤ b)
        × (b ≤ most_objects) × Doomed (read s.old) × Active (read s.old) }
    ensures { Becomes s.old s.new (destroy_block (was s.old) t b) }
{
    holding::let_go_block(s, t, b);
    let state = fate_of(s, b);
    session::set(s, Field::BlockState, b as usize, state);
}

// 8 destroy (caller, object), by its kind: the steps climbed where it is a task, returned with the session, else 0. Internal: callers
// have shown a sound session and the checks.
pub fn destroy_object(s: &mut Memory, caller: u64, h: u64) -> u64
    requires { Holds (sound (read s.old)) × met (destroy_checks (read s.old) caller h) }
    ensures { Made s.old s.new (destroy (was s.old) caller h) (destroy_climbs (was s.old) caller h) result }
{
    let at = h as usize;
    match session::get(s, Field::Kind, at) {
        names::TEMPLATE => session::set(s, Field::TemplateState, at, names::TEMPLATE_DESTROYED),
        names::TASK => return destroy_task(s, h),
        names::EVENT => destroy_event(s, h),
        _ => destroy_block(s, caller, h),
    }
    0
}
