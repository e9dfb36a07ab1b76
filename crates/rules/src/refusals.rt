// Why an operation is turned down: document 01's refusals. The first check that fails gives its number.
ghost use Rattle.std.specs.Prelude.{◌≡◌};
ghost use Rattle.rules.specs.Refusals.{number};

// A refusal; its number is its place here, from 1 on.
#[derive(Clone, Copy, Debug, PartialEq, Eq)]
pub enum Refusal {
    // Memory is too short, or under 32 bytes are free for a line or a record.
    NoRoom = 1,
    NotSound,
    // A number is cut short by the sheet's end; is not in its shortest form or too large; the sheet's first one is no edition.
    CutShort,
    BadNumber,
    NotASheet,
    UnknownCode,
    // A field is outside the range in its brackets.
    OutOfRange,
    CallerNotRunning,
    NeverMade,
    WrongKind,
    Gone,
    // No such slot, or a count that is not admitted.
    NoSuchSlot,
    AlreadyClaimed,
    StickyFired,
    NotHeld,
    // The task or link is not in the state needed.
    WrongState,
    // A pre-slot's block is doomed or destroyed.
    BlockGone,
    // A hold of another task conflicts.
    ConflictingHold,
    LatchRange,
    TooManyObjects,
    TooManyLinks,
    // Of a class report: a sheet's length, and a learner lower than the one before.
    TooLong,
    LowerLearner,
    // A counted event already has its count of links.
    CountReached,
}

impl From<Refusal> for u64 {
    ghost from_gives = { λ refusal n. n ≡ number refusal };

    fn from(refusal: Refusal) -> u64 {
        refusal as u64
    }
}
