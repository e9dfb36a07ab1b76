#![tactic(auto)]

// The tally of a class, lent to each sheet's run, which raises it. `run_sheet` and `run_with`, which docs/ name, are lent memory of any length from a
// session's on, so that it stays a slice.
ghost use Rattle.std.specs.Prelude.{◌≡◌, ◌≤◌, length};
ghost use Rattle.session.specs.Table.{read, words};
ghost use Rattle.session.specs.Lent.{Becomes};
ghost use Rattle.session.specs.Fresh.{fresh_session};
ghost use Rattle.rules.specs.Formula.{Holds};
ghost use Rattle.rules.specs.Sound.{kept};
ghost use Rattle.sheet.specs.SheetPrinted.{print_sheet};
ghost use Rattle.sheet_counts.specs.Answers.{counts_of};
ghost use Rattle.tally.specs.Raise.{sum_to, raise};

use sheet_counts::{Tally, count_sheet};

// The largest number of 64 bits.
pub const MOST: u64 = u64::MAX;

// Two counts together, no more than the width's largest.
fn capped(a: u64, b: u64) -> u64
    ensures { result ≡ sum_to a b }
{
    a.checked_add(b).unwrap_or(MOST)
}

// A tally raised by a sheet's four counts.
pub fn raised(tally: Tally, counts: Tally) -> Tally
    ensures { result ≡ raise tally counts }
{
    Tally {
        records: capped(tally.records, counts.records),
        refused: capped(tally.refused, counts.refused),
        starts: capped(tally.starts, counts.starts),
        dropped: capped(tally.dropped, counts.dropped),
    }
}

// Raises the tally that the caller lends.
pub fn add(tally: &mut Tally, counts: Tally)
    ensures { tally.new ≡ raise tally.old counts }
{
    *tally = raised(*tally, counts);
}

// A sheet's run with the tally lent to it, which it raises.
pub fn run_sheet(sheet: &[u8], memory: &mut [u64], tally: &mut Tally) -> Tally
    requires { (words ≤ length memory.old) × Holds (kept (read memory.old)) }
    ensures answer { result ≡ counts_of sheet.now }
    ensures memory { Becomes memory.old memory.new (print_sheet sheet.now fresh_session).session }
    ensures tally { tally.new ≡ raise tally.old (counts_of sheet.now) }
{
    let counts = count_sheet(sheet, memory);
    add(tally, counts);
    counts
}

// A sheet's run, and the tally that it leaves.
#[derive(Clone, Copy, Debug, PartialEq, Eq)]
pub struct Ran {
    pub counts: Tally,
    pub tally: Tally,
}

// A sheet's run with the tally by value: lends it to `run_sheet`.
pub fn run_with(sheet: &[u8], memory: &mut [u64], mut tally: Tally) -> Ran
    requires { (words ≤ length memory.old) × Holds (kept (read memory.old)) }
    ensures answer { result.counts ≡ counts_of sheet.now }
    ensures memory { Becomes memory.old memory.new (print_sheet sheet.now fresh_session).session }
    ensures tally { result.tally ≡ raise tally (counts_of sheet.now) }
{
    let counts = run_sheet(sheet, memory, &mut tally);
    Ran { counts, tally }
}
