// A payload.
ghost use Rattle.std.specs.Prelude.{◌≡◌};
ghost use Rattle.session.specs.Lent.{was};
ghost use Rattle.rules.specs.Formula.{test};
ghost use Rattle.rules.specs.Sound.{is_payload};

use reading::{is_made, of_object};
use session::{Field, Memory, names};

// Whether a number is 0 or a block.
pub fn is_payload(s: &Memory, p: u64) -> bool
    ensures { result ≡ test (is_payload (was s.now) p) }
{
    (p == 0) | is_made(s, p) & (of_object(s, Field::Kind, p) == names::BLOCK)
}
