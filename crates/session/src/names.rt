// The numbers of kinds, states, types, modes and marks, as they stand in a session's memory (docs/LAYOUT.md).

pub const MOST_OBJECTS: u64 = 512;

pub const MOST_LINKS: u64 = 2048;

// The places of handles and of links, with one for 0, which names none, and of sixteen pre-slots for each handle.
pub const OBJECT_PLACES: usize = MOST_OBJECTS as usize + 1;

pub const LINK_PLACES: usize = MOST_LINKS as usize + 1;

pub const SLOT_PLACES: usize = 16 * OBJECT_PLACES;

// Kinds of object. A task is OCR's EDT, a block its data block, a handle its GUID.
pub const TEMPLATE: u64 = 1;

pub const TASK: u64 = 2;

pub const EVENT: u64 = 3;

pub const BLOCK: u64 = 4;

// A template, an event or a block as it is made: live, open, live.
pub const FRESH: u64 = 1;

pub const TEMPLATE_DESTROYED: u64 = 2;

pub const UNKNOWN_COUNT: u64 = 17;

// States of a task.
pub const WAITING: u64 = 1;

pub const RESOLVED: u64 = 2;

pub const GRANTED: u64 = 3;

pub const RUNNING: u64 = 4;

pub const ENDED: u64 = 5;

pub const TASK_DESTROYED: u64 = 6;

// States of an event.
pub const OPEN: u64 = 1;

pub const FIRED: u64 = 2;

pub const DESTROYED_UNFIRED: u64 = 3;

pub const DESTROYED_FIRED: u64 = 4;

// Types of event.
pub const ONCE: u64 = 1;

pub const IDEMPOTENT: u64 = 2;

pub const STICKY: u64 = 3;

pub const LATCH: u64 = 4;

pub const OUTPUT: u64 = 5;

pub const COUNTED: u64 = 6;

// States of a block.
pub const DOOMED: u64 = 2;

pub const BLOCK_DESTROYED: u64 = 3;

// States of a link.
pub const LINK_OPEN: u64 = 1;

pub const READY: u64 = 2;

pub const DELIVERED: u64 = 3;

pub const CUT: u64 = 4;

// Modes of access.
pub const RO: u64 = 1;

pub const RW: u64 = 2;

pub const EW: u64 = 3;

pub const CONST: u64 = 4;

// A pre-slot's mark: 0 while unsatisfied, then satisfied, and held while its task holds its block.
pub const SATISFIED: u64 = 1;

pub const HELD: u64 = 2;

// A latch's tally at the count 0, and the largest.
pub const EVEN_TALLY: u64 = 32767;

pub const TOP_TALLY: u64 = 65534;

// The links that a counted event is made for, at the most.
pub const MOST_COUNT: u64 = 16;
