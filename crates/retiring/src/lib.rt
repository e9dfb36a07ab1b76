#![tactic(auto)]

// What accepted operations that destroy and end do to a session's memory: a function for each, by its name. docs/changes/E5.md
// names the two, so that they take slices as before; all below works on the first words.
ghost use Rattle.std.specs.Prelude.{◌≤◌, length};
ghost use Rattle.session.specs.Table.{read, words};
ghost use Rattle.session.specs.Lent.{was};
ghost use Rattle.rules.specs.Formula.{Holds};
ghost use Rattle.rules.specs.Sound.{sound};
ghost use Rattle.rules.specs.Checks.{destroy_checks, end_checks};
ghost use Rattle.rules.specs.Effects.{destroy, end};
ghost use Rattle.rules.specs.Step.{destroy_climbs, end_climbs};
ghost use Rattle.effects.specs.Made.{Made};
ghost use Rattle.laws.specs.Met.{met};

mod children;
mod climbing;
mod destroying;
mod ending;
mod finishing;

use session::WORDS;

// 8 destroy (caller, object), by its kind: the steps climbed where it is a task, returned with the session, else 0. Internal: callers
// have shown the length, a sound session and the checks.
pub fn destroy(s: &mut [u64], caller: u64, h: u64) -> u64
    requires { (words ≤ length s.old) × Holds (sound (read s.old)) × met (destroy_checks (read s.old) caller h) }
    ensures { Made s.old s.new (destroy (was s.old) caller h) (destroy_climbs (was s.old) caller h) result }
{
    let Some(s) = s.first_chunk_mut::<WORDS>() else {
        unreachable!()
    };
    destroying::destroy_object(s, caller, h)
}

// 12 end (task, block or 0): the steps climbed, returned with the session. Internal, as `destroy` is.
pub fn end(s: &mut [u64], t: u64, b: u64) -> u64
    requires { (words ≤ length s.old) × Holds (sound (read s.old)) × met (end_checks (read s.old) t b) }
    ensures { Made s.old s.new (end (was s.old) t b) (end_climbs (was s.old) t b) result }
{
    let Some(s) = s.first_chunk_mut::<WORDS>() else {
        unreachable!()
    };
    ending::end_task(s, t, b)
}
