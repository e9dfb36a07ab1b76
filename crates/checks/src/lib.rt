#![tactic(auto)]

// For each operation, why it is turned down: the refusal of the first check that fails. Internal. Operations that differ in one check alone
// stay apart, since each names its own list of checks in its contract. That the session is sound stays a clause: a view that carries it
// would be made of the memory for each operation and given up before its effect writes.
ghost use Rattle.std.specs.Prelude.{◌≡◌};
ghost use Rattle.session.specs.Table.{read};
ghost use Rattle.session.specs.Lent.{was};
ghost use Rattle.rules.specs.Formula.{Holds};
ghost use Rattle.rules.specs.Sound.{sound};
ghost use Rattle.rules.specs.Refusals.{refusal_told};
ghost use Rattle.rules.specs.Checks.{refusal, template_checks, task_checks, event_checks, block_checks, dependence_checks};
ghost use Rattle.rules.specs.Checks.{satisfy_checks, release_checks, destroy_checks, deliver_checks, grant_checks, start_checks};
ghost use Rattle.rules.specs.Checks.{end_checks, counted_checks};
ghost use Rattle.checks.specs.CheckParts.{satisfy_or_link_checks};

pub mod granting;
mod handles;
pub mod holders;
pub mod objects;

use crate::granting::is_free;
use crate::handles::{
    are_blocks_left, has_event_slot, has_room, has_slot, is_block_or_null, is_count,
    is_destination, is_destroyable, is_idle, is_made_or_null, is_source, is_unclaimed,
    is_user_event, remains_or_null,
};
use reading::{
    has_its_count, holds_block, is_fired_sticky, is_gone, is_kind, is_made, is_running, of_link,
    of_object, overflows,
};
use rules::Refusal;
use rules::event_types::{is_link_count, is_offered_type};
use session::{Field, Memory, names};

#[tactic(auto, using(rules::specs::Bools::tests), unfolding(rules::specs::Checks::refusal))]
pub fn template_refusal(s: &Memory, caller: u64, n: u64) -> Result<(), Refusal>
    ensures { refusal_told result ≡ refusal (template_checks (was s.now) caller n) }
{
    if names::UNKNOWN_COUNT < n {
        return Err(Refusal::OutOfRange);
    }
    if !is_running(s, caller) {
        return Err(Refusal::CallerNotRunning);
    }
    if !has_room(s, 1) {
        return Err(Refusal::TooManyObjects);
    }
    Ok(())
}

#[tactic(auto, using(rules::specs::Bools::tests), unfolding(rules::specs::Checks::refusal))]
pub fn task_refusal(
    s: &Memory,
    caller: u64,
    template: u64,
    n: u64,
    finish: u64,
    output: u64,
) -> Result<(), Refusal>
    ensures { refusal_told result ≡ refusal (task_checks (was s.now) caller template n finish output) }
{
    if names::UNKNOWN_COUNT < n {
        return Err(Refusal::OutOfRange);
    }
    if 1 < finish {
        return Err(Refusal::OutOfRange);
    }
    if 1 < output {
        return Err(Refusal::OutOfRange);
    }
    if !is_running(s, caller) {
        return Err(Refusal::CallerNotRunning);
    }
    if !is_made(s, template) {
        return Err(Refusal::NeverMade);
    }
    if !is_kind(s, names::TEMPLATE, template) {
        return Err(Refusal::WrongKind);
    }
    if is_gone(s, template) {
        return Err(Refusal::Gone);
    }
    if !is_count(s, template, n) {
        return Err(Refusal::NoSuchSlot);
    }
    if !has_room(s, 1 + output) {
        return Err(Refusal::TooManyObjects);
    }
    Ok(())
}

#[tactic(auto, using(rules::specs::Bools::tests), unfolding(rules::specs::Checks::refusal))]
pub fn event_refusal(s: &Memory, caller: u64, ty: u64) -> Result<(), Refusal>
    ensures { refusal_told result ≡ refusal (event_checks (was s.now) caller ty) }
{
    if !is_offered_type(ty) {
        return Err(Refusal::OutOfRange);
    }
    if !is_running(s, caller) {
        return Err(Refusal::CallerNotRunning);
    }
    if !has_room(s, 1) {
        return Err(Refusal::TooManyObjects);
    }
    Ok(())
}

#[tactic(auto, using(rules::specs::Bools::tests), unfolding(rules::specs::Checks::refusal))]
pub fn counted_refusal(s: &Memory, caller: u64, n: u64) -> Result<(), Refusal>
    ensures { refusal_told result ≡ refusal (counted_checks (was s.now) caller n) }
{
    if !is_link_count(n) {
        return Err(Refusal::OutOfRange);
    }
    if !is_running(s, caller) {
        return Err(Refusal::CallerNotRunning);
    }
    if !has_room(s, 1) {
        return Err(Refusal::TooManyObjects);
    }
    Ok(())
}

#[tactic(auto, using(rules::specs::Bools::tests), unfolding(rules::specs::Checks::refusal))]
pub fn block_refusal(s: &Memory, caller: u64, hold: u64) -> Result<(), Refusal>
    ensures { refusal_told result ≡ refusal (block_checks (was s.now) caller hold) }
{
    if 1 < hold {
        return Err(Refusal::OutOfRange);
    }
    if !is_running(s, caller) {
        return Err(Refusal::CallerNotRunning);
    }
    if !has_room(s, 1) {
        return Err(Refusal::TooManyObjects);
    }
    Ok(())
}

// The checks of a dependence from 14 on: those of a link, or those of a slot that is satisfied now. The memory is a sound session.
#[tactic(auto, using(rules::specs::Bools::tests), unfolding(rules::specs::Checks::refusal))]
fn satisfy_or_link_refusal(s: &Memory, source: u64, d: u64, j: u64) -> Result<(), Refusal>
    requires { Holds (sound (read s.now)) }
    ensures { refusal_told result ≡ refusal (satisfy_or_link_checks (was s.now) source d j) }
{
    if is_kind(s, names::EVENT, source) {
        if has_its_count(s, source) {
            return Err(Refusal::CountReached);
        }
        if names::MOST_LINKS <= session::get(s, Field::Links, 0) {
            return Err(Refusal::TooManyLinks);
        }
        return Ok(());
    }
    if is_fired_sticky(s, d) {
        return Err(Refusal::StickyFired);
    }
    if overflows(s, d, j) {
        return Err(Refusal::LatchRange);
    }
    Ok(())
}

// The memory is a sound session.
#[tactic(auto, using(rules::specs::Bools::tests), unfolding(rules::specs::Checks::refusal))]
pub fn dependence_refusal(
    s: &Memory,
    caller: u64,
    source: u64,
    d: u64,
    j: u64,
    mode: u64,
) -> Result<(), Refusal>
    requires { Holds (sound (read s.now)) }
    ensures { refusal_told result ≡ refusal (dependence_checks (was s.now) caller source d j mode) }
{
    if mode < names::RO {
        return Err(Refusal::OutOfRange);
    }
    if names::CONST < mode {
        return Err(Refusal::OutOfRange);
    }
    if !is_running(s, caller) {
        return Err(Refusal::CallerNotRunning);
    }
    if !is_made_or_null(s, source) {
        return Err(Refusal::NeverMade);
    }
    if !is_made(s, d) {
        return Err(Refusal::NeverMade);
    }
    if !is_source(s, source) {
        return Err(Refusal::WrongKind);
    }
    if !is_destination(s, d) {
        return Err(Refusal::WrongKind);
    }
    if !remains_or_null(s, source) {
        return Err(Refusal::Gone);
    }
    if is_gone(s, d) {
        return Err(Refusal::Gone);
    }
    if !has_slot(s, d, j) {
        return Err(Refusal::NoSuchSlot);
    }
    if !is_unclaimed(s, d, j) {
        return Err(Refusal::AlreadyClaimed);
    }
    satisfy_or_link_refusal(s, source, d, j)
}

// The memory is a sound session.
#[tactic(auto, using(rules::specs::Bools::tests), unfolding(rules::specs::Checks::refusal))]
pub fn satisfy_refusal(s: &Memory, caller: u64, e: u64, b: u64, j: u64) -> Result<(), Refusal>
    requires { Holds (sound (read s.now)) }
    ensures { refusal_told result ≡ refusal (satisfy_checks (was s.now) caller e b j) }
{
    if !is_running(s, caller) {
        return Err(Refusal::CallerNotRunning);
    }
    if !is_made(s, e) {
        return Err(Refusal::NeverMade);
    }
    if !is_made_or_null(s, b) {
        return Err(Refusal::NeverMade);
    }
    if !is_user_event(s, e) {
        return Err(Refusal::WrongKind);
    }
    if !is_block_or_null(s, b) {
        return Err(Refusal::WrongKind);
    }
    if is_gone(s, e) {
        return Err(Refusal::Gone);
    }
    if !remains_or_null(s, b) {
        return Err(Refusal::Gone);
    }
    if !has_event_slot(s, e, j) {
        return Err(Refusal::NoSuchSlot);
    }
    if is_fired_sticky(s, e) {
        return Err(Refusal::StickyFired);
    }
    if overflows(s, e, j) {
        return Err(Refusal::LatchRange);
    }
    Ok(())
}

#[tactic(auto, using(rules::specs::Bools::tests), unfolding(rules::specs::Checks::refusal))]
pub fn release_refusal(s: &Memory, caller: u64, b: u64) -> Result<(), Refusal>
    ensures { refusal_told result ≡ refusal (release_checks (was s.now) caller b) }
{
    if !is_running(s, caller) {
        return Err(Refusal::CallerNotRunning);
    }
    if !is_made(s, b) {
        return Err(Refusal::NeverMade);
    }
    if !is_kind(s, names::BLOCK, b) {
        return Err(Refusal::WrongKind);
    }
    if of_object(s, Field::BlockState, b) == names::BLOCK_DESTROYED {
        return Err(Refusal::Gone);
    }
    if !holds_block(s, caller, b) {
        return Err(Refusal::NotHeld);
    }
    Ok(())
}

// The memory is a sound session.
#[tactic(auto, using(rules::specs::Bools::tests), unfolding(rules::specs::Checks::refusal))]
pub fn destroy_refusal(s: &Memory, caller: u64, h: u64) -> Result<(), Refusal>
    requires { Holds (sound (read s.now)) }
    ensures { refusal_told result ≡ refusal (destroy_checks (was s.now) caller h) }
{
    if !is_running(s, caller) {
        return Err(Refusal::CallerNotRunning);
    }
    if !is_made(s, h) {
        return Err(Refusal::NeverMade);
    }
    if !is_destroyable(s, h) {
        return Err(Refusal::WrongKind);
    }
    if is_gone(s, h) {
        return Err(Refusal::Gone);
    }
    if !is_idle(s, h) {
        return Err(Refusal::WrongState);
    }
    Ok(())
}

#[tactic(auto, using(rules::specs::Bools::tests), unfolding(rules::specs::Checks::refusal))]
pub fn deliver_refusal(s: &Memory, l: u64) -> Result<(), Refusal>
    ensures { refusal_told result ≡ refusal (deliver_checks (was s.now) l) }
{
    if l == 0 {
        return Err(Refusal::NeverMade);
    }
    if session::get(s, Field::Links, 0) < l {
        return Err(Refusal::NeverMade);
    }
    if of_link(s, Field::LinkState, l) != names::READY {
        return Err(Refusal::WrongState);
    }
    Ok(())
}

// The memory is a sound session.
#[tactic(auto, using(rules::specs::Bools::tests), unfolding(rules::specs::Checks::refusal))]
pub fn grant_refusal(s: &Memory, t: u64) -> Result<(), Refusal>
    requires { Holds (sound (read s.now)) }
    ensures { refusal_told result ≡ refusal (grant_checks (was s.now) t) }
{
    if !is_made(s, t) {
        return Err(Refusal::NeverMade);
    }
    if !is_kind(s, names::TASK, t) {
        return Err(Refusal::WrongKind);
    }
    if is_gone(s, t) {
        return Err(Refusal::Gone);
    }
    if of_object(s, Field::TaskState, t) != names::RESOLVED {
        return Err(Refusal::WrongState);
    }
    if !are_blocks_left(s, t) {
        return Err(Refusal::BlockGone);
    }
    if !is_free(s, t) {
        return Err(Refusal::ConflictingHold);
    }
    Ok(())
}

#[tactic(auto, using(rules::specs::Bools::tests), unfolding(rules::specs::Checks::refusal))]
pub fn start_refusal(s: &Memory, t: u64) -> Result<(), Refusal>
    ensures { refusal_told result ≡ refusal (start_checks (was s.now) t) }
{
    if !is_made(s, t) {
        return Err(Refusal::NeverMade);
    }
    if !is_kind(s, names::TASK, t) {
        return Err(Refusal::WrongKind);
    }
    if is_gone(s, t) {
        return Err(Refusal::Gone);
    }
    if of_object(s, Field::TaskState, t) != names::GRANTED {
        return Err(Refusal::WrongState);
    }
    Ok(())
}

#[tactic(auto, using(rules::specs::Bools::tests), unfolding(rules::specs::Checks::refusal))]
pub fn end_refusal(s: &Memory, t: u64, b: u64) -> Result<(), Refusal>
    ensures { refusal_told result ≡ refusal (end_checks (was s.now) t b) }
{
    if !is_made(s, t) {
        return Err(Refusal::NeverMade);
    }
    if !is_made_or_null(s, b) {
        return Err(Refusal::NeverMade);
    }
    if !is_kind(s, names::TASK, t) {
        return Err(Refusal::WrongKind);
    }
    if !is_block_or_null(s, b) {
        return Err(Refusal::WrongKind);
    }
    if is_gone(s, t) {
        return Err(Refusal::Gone);
    }
    if !remains_or_null(s, b) {
        return Err(Refusal::Gone);
    }
    if of_object(s, Field::TaskState, t) != names::RUNNING {
        return Err(Refusal::WrongState);
    }
    Ok(())
}
