// The mode rule, on the codes of two access modes.
ghost use Rattle.std.specs.Prelude.{◌≡◌};
ghost use Rattle.rules.specs.Formula.{test};
ghost use Rattle.rules.specs.Modes.{conflict, stopped_by};

use session::names;

// Whether holds of different tasks in modes a and b conflict: neither is RO, and they differ or both are EW.
#[tactic(auto, using(crate::specs::Bools::tests))]
pub fn conflicts(a: u64, b: u64) -> bool
    ensures { result ≡ test (conflict a b) }
{
    let differ = a != b;
    let both = (a == names::EW) & (b == names::EW);
    (a != names::RO) & ((b != names::RO) & (differ | both))
}

// Whether a hold of another task in mode `held` stops a grant that asks for mode `asked`: for now, where the two conflict.
pub fn is_stopped(asked: u64, held: u64) -> bool
    ensures { result ≡ test (stopped_by asked held) }
{
    conflicts(asked, held)
}
