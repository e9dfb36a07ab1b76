// Looking for a place by any test, eight places at a time: most are not the one that is looked for. Internal: callers have shown the
// places that may be tested.
ghost use Rattle.std.specs.Prelude.{ℕ, ◌+◌, ◌≤◌, ◌<◌};
ghost use Rattle.reading.specs.Eights.{OneOfEight, NextBy};

// Whether one of the eight places from `from` on passes. The bound is constant, so that the eight tests stand in a row.
pub fn any_of_eight<F: Fn(usize) -> bool>(from: usize, passes: F) -> bool
    requires places { from + 8 ≤ usize.MAX }
    requires callable { (i : ℕ) → from ≤ i → i < from + 8 → F.pre passes i }
    ensures { OneOfEight (F.post passes) from result }
{
    (0..8).any(|k| passes(from + k))
}

// The first place from `from` on and before `end` that passes.
#[tactic(auto, unfolding(crate::specs::Eights::OneOfEight, crate::specs::Eights::NextBy))]
pub fn next_where<F: Fn(usize) -> bool>(from: usize, end: usize, passes: F) -> Option<usize>
    requires places { (from ≤ end) × (end + 8 ≤ usize.MAX) }
    requires callable { (i : ℕ) → from ≤ i → i < end → F.pre passes i }
    ensures { NextBy (F.post passes) from end result }
{
    let mut first = from;
    // a step of eight that ends at a test, which is no range
    while first + 8 <= end && !any_of_eight(first, &passes) {
        first += 8;
    }
    for i in first..end {
        if passes(i) {
            return Some(i);
        }
    }
    None
}
