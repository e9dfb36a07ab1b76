#![tactic(auto, using(crate::proofs::Bools::bools))]

// Whether lent memory holds a sound session (document 01, "A sound session"; check 2). Words may be any numbers.
// The rules are looked at in an order in which each finds what it needs of the earlier ones, and each in one pass.
// The tests at one place are joined by `&` and `|`, and `!(a == b) | c` says "if a is b then c", so that no pass has a branch.
// A handle's bound, as `h ≤ most_objects`, stays a clause: a pass gives it to each call, and a type for it would be made at each place.
ghost use Rattle.std.specs.Prelude.{◌≡◌};
ghost use Rattle.session.specs.Table.{read};
ghost use Rattle.session.specs.Lent.{was};
ghost use Rattle.rules.specs.Formula.{test};
ghost use Rattle.rules.specs.Sound.{sound, slots};
ghost use Rattle.sound.specs.LinkOf.{Linked};
ghost use Rattle.sound.specs.RulesInOrder.{Known, sound_memory, parts, linked_up, uses};

use crate::slots::LastLinks;
use crate::view::View;
use session::{Field, Memory, names};

mod blocks;
mod counted;
mod holders;
mod links;
mod objects;
mod passes;
mod places;
mod slots;
mod tasks;
mod unused;
mod view;

// The rules about objects by themselves, and that unused parts are zero.
fn are_parts(v: &View) -> bool
    ensures { result ≡ test (parts (was v.now.s.now)) }
{
    let s = v.s;
    let null = reading::of_object(s, Field::Kind, 0) == 0;
    let rest = tasks::are_creators(v) & unused::is_rest_unused(s);
    null & objects::are_objects(v) & (objects::are_roots(s) & rest)
}

// Each slot of a task has at most one link, and is as its link wants.
fn are_linked_up(v: &View) -> bool
    requires { Linked (read v.now.s.now) }
    ensures { result ≡ test (linked_up (was v.now.s.now)) }
{
    let mut row: [u16; names::SLOT_PLACES] = [0; names::SLOT_PLACES];
    slots::note_links(v, &mut row);
    let last = LastLinks { v: *v, last: &row };
    last.are_single() && last.are_slots()
}

// The rules about what uses the slots. Callers have shown the rules before.
fn are_uses(v: &View) -> bool
    requires parts { Known (parts (read v.now.s.now)) }
    requires slots { Known (slots (read v.now.s.now)) }
    ensures { result ≡ test (uses (was v.now.s.now)) }
{
    let s = v.s;
    let drops = session::get(s, Field::Dropped, 0) <= links::count_delivered(v);
    let ends = objects::are_latches(v) & (counted::are_counted(v) & drops);
    tasks::are_states(v) & (blocks::are_blocks(v) & (holders::are_compatible(v) & ends))
}

// Whether memory that is long enough holds a sound session.
fn is_sound_session(s: &Memory) -> bool
    ensures { result ≡ test (sound (was s.now)) }
{
    if !objects::are_counts(s) {
        return false;
    }
    let v = View {
        s,
        objects: session::get(s, Field::Objects, 0),
        links: session::get(s, Field::Links, 0),
    };
    if !are_parts(&v) {
        return false;
    }
    if !tasks::are_outputs(&v) {
        return false;
    }
    if !links::are_links(&v) {
        return false;
    }
    if !are_linked_up(&v) {
        return false;
    }
    are_uses(&v)
}

// Whether lent memory holds a sound session; memory that is too short does not. Never writes.
#[tactic(auto, using(crate::specs::RulesInOrder::short_unsound))]
pub fn is_sound(s: &[u64]) -> bool
    ensures { result ≡ sound_memory s.now }
{
    if s.len() < session::WORDS {
        return false;
    }
    // So there is a first part of that length: `unwrap` is proved, and tests nothing.
    is_sound_session(s.first_chunk::<{ session::WORDS }>().unwrap())
}
