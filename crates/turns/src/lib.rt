#![tactic(auto)]

// Two sheets of one learner: which of them counts, and where sheets lie in a memory.
ghost use Rattle.std.specs.Prelude.{◌≤◌, ◌≡◌, length, take, drop};
ghost use Rattle.rules.specs.Formula.{choose, Formula.◌≼◌};
ghost use Rattle.turns.specs.MemoryPlaces.{least};

// Of two turned-in sheets, the earlier in the file first, the one that supersedes, as the lender's own bytes: that with the higher
// turn, and of equal turns the later.
#[tactic(auto, using(rules::specs::FormulaLaws::choose_yes, rules::specs::FormulaLaws::choose_no))]
pub fn superseding<'a>(earlier: &'a [u8], past: u64, later: &'a [u8], turn: u64) -> &'a [u8]
    ensures { result ≡ choose (past ≼ turn) later.entry earlier.entry }
{
    if past <= turn { later } else { earlier }
}

// What a memory holds from a place on.
fn rest_of(room: &[u8], place: usize) -> &[u8]
    ensures { result.now ≡ drop place room.now }
{
    room.get(place..).unwrap_or(&[])
}

// Where the one that supersedes begins, of two sheets in one memory: what a memory holds from a place on tells by its length which
// place that is. Internal: callers have shown that the later one's place lies in the memory.
pub fn superseding_place(room: &[u8], held: usize, past: u64, place: usize, turn: u64) -> usize
    requires { place ≤ length room.now }
    ensures { result ≡ choose (past ≼ turn) place (least held (length room.now)) }
{
    let kept = superseding(rest_of(room, held), past, rest_of(room, place), turn);
    room.len() - kept.len()
}

// The bytes of a sheet in a memory, as many as are there.
pub fn sheet_in(room: &[u8], place: usize, length: u64) -> &[u8]
    ensures { result.now ≡ take length (drop place room.now) }
{
    let rest = rest_of(room, place);
    rest.get(..length as usize).unwrap_or(rest)
}
