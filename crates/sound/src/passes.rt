// A pass over places, in which every place is looked at: the answers are joined by `&`, so that the loop has no branch of its own.
// Internal: callers have shown that the test may be asked of each place.
ghost use Rattle.std.specs.Prelude.{◌≡◌, ℕ, ◌<◌, Bool};
ghost use Rattle.rules.specs.Formula.{Formula, test, Formula.each};

// Whether `holds` answers yes at each place before the end: the test of any formula f that each of its answers is the test of.
pub fn all_below<F: Fn(u64) -> bool>(end: u64, holds: F) -> bool
    requires { (i : ℕ) → i < end → F.pre holds i }
    ensures { (f : ℕ → Formula) → ((i : ℕ) (r : Bool) → i < end → F.post holds i r → r ≡ test (f i)) → result ≡ test (each end f) }
{
    let mut ok = true;
    for i in 0..end {
        ok = holds(i) & ok;
    }
    ok
}
