// What the rules say of an event's type, by its code: one function a column of EventTypes.antt. Elsewhere only latches (their tally),
// output events (their task) and counted ones (their count) are told from others.
ghost use Rattle.std.specs.Prelude.{◌≡◌};
ghost use Rattle.rules.specs.Formula.{test};
ghost use Rattle.rules.specs.EventTypes.{is_event_type, is_offered_type, is_user_type, gone_when_fired, refuses_further};
ghost use Rattle.rules.specs.EventTypes.{has_type_slot, is_link_count};

use session::names;

#[tactic(auto, using(crate::specs::Bools::tests), unfolding(crate::specs::EventTypes::of_type))]
pub fn is_event_type(ty: u64) -> bool
    ensures { result ≡ test (is_event_type ty) }
{
    matches!(
        ty,
        names::ONCE
            | names::IDEMPOTENT
            | names::STICKY
            | names::LATCH
            | names::OUTPUT
            | names::COUNTED
    )
}

// Whether operation 3 makes it.
#[tactic(auto, using(crate::specs::Bools::tests), unfolding(crate::specs::EventTypes::of_type))]
pub fn is_offered_type(ty: u64) -> bool
    ensures { result ≡ test (is_offered_type ty) }
{
    matches!(
        ty,
        names::ONCE | names::IDEMPOTENT | names::STICKY | names::LATCH
    )
}

// Whether a call may name it.
#[tactic(auto, using(crate::specs::Bools::tests), unfolding(crate::specs::EventTypes::of_type))]
pub fn is_user_type(ty: u64) -> bool
    ensures { result ≡ test (is_user_type ty) }
{
    matches!(
        ty,
        names::ONCE | names::IDEMPOTENT | names::STICKY | names::LATCH | names::COUNTED
    )
}

// Whether it counts as gone once it has fired.
#[tactic(auto, using(crate::specs::Bools::tests), unfolding(crate::specs::EventTypes::of_type))]
pub fn is_gone_when_fired(ty: u64) -> bool
    ensures { result ≡ test (gone_when_fired ty) }
{
    matches!(ty, names::ONCE | names::LATCH | names::OUTPUT)
}

// Whether it refuses a further satisfaction once it has fired.
#[tactic(auto, using(crate::specs::Bools::tests), unfolding(crate::specs::EventTypes::of_type))]
pub fn refuses_further(ty: u64) -> bool
    ensures { result ≡ test (refuses_further ty) }
{
    matches!(ty, names::STICKY | names::COUNTED)
}

// Whether a counted event may be made for so many links.
#[tactic(auto, using(crate::specs::Bools::tests))]
pub fn is_link_count(n: u64) -> bool
    ensures { result ≡ test (is_link_count n) }
{
    (1..=names::MOST_COUNT).contains(&n)
}

// Whether it has slot j.
#[tactic(auto, using(crate::specs::Bools::tests), unfolding(crate::specs::EventTypes::of_type))]
pub fn has_type_slot(ty: u64, j: u64) -> bool
    ensures { result ≡ test (has_type_slot ty j) }
{
    (j == 0) & is_user_type(ty) | (j == 1) & (ty == names::LATCH)
}
