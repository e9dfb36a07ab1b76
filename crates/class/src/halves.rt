// Two sheets in one memory: the pending one lies in one half, and what is read next goes into the other.
ghost use Rattle.std.specs.Prelude.{◌≡◌};
ghost use Rattle.class.specs.Halves.{free_half};

use crate::{MOST_BYTES, Report};

// Where the half begins in which no pending sheet lies.
pub fn free_half(report: Report) -> usize
    ensures { result ≡ free_half report.pending }
{
    let Some(sheet) = report.pending else {
        return 0;
    };
    if sheet.place == 0 { MOST_BYTES } else { 0 }
}
