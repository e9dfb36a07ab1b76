#![tactic(auto)]

// What the class program reads of its input: ahead of what is asked for, but no byte past the last sheet.
ghost use Rattle.std.specs.Prelude.{◌+◌, ◌-◌, ◌<◌, ◌≤◌, ◌≡◌, length, IfOk, OnErr};
ghost use Rattle.std.specs.Io.KnownBytes.{Consumes, IsAtEnd};
ghost use Rattle.number.specs.Number.{splice};
ghost use Rattle.turns.specs.MemoryPlaces.{least};
ghost use Rattle.class.specs.Halves.{InHalf, Apart, free_half};
ghost use Rattle.class.specs.Steps.{asks, pending_in};
ghost use Rattle.class_input.specs.Ahead.{behind, Ahead};
ghost use Rattle.class_input.specs.Window.{part, size_of, Inside, Filled, Given};

use class::{Report, TWO_SHEETS};
use std::io;
use std::io::Read;

// How many bytes are read ahead at most.
pub const INPUT: usize = 16384;

// The memory of what is read ahead, and that of the pending sheet and the next one.
pub type Input = [u8; INPUT];

pub type Room = [u8; TWO_SHEETS];

// Where the bytes lie that were read and are not handed yet: from one place of a memory to another. No slice: the memory is read into
// again while the window goes along.
#[derive(Clone, Copy, Debug, PartialEq, Eq)]
pub struct Window {
    pub from: usize,
    pub to: usize,
}

// The place behind the bytes that are handed, and what is still to be handed.
#[derive(Clone, Copy, Debug, PartialEq, Eq)]
pub struct Handed {
    pub end: usize,
    pub window: Window,
}

// How many bytes may be read where one is asked for: that one, and a byte for each number of the entries behind this one.
fn may_read(left: u64) -> usize
    ensures told { result ≡ least (1 + behind left) 16384 }
    ensures most { result ≤ 16384 }
{
    let behind = left.saturating_sub(1).saturating_mul(3);
    behind.saturating_add(1).min(INPUT as u64) as usize
}

// The same window or, in place of one that is empty, what one read gives; nothing, if the input has ended. An error is that read's.
fn fill<R: Read>(reader: &mut R, window: Window, left: u64, input: &mut Input) -> io::Result<Window>
    requires { Inside window input.old }
    ensures filled { IfOk result (λ w. (f : Filled window left input.old input.new w)
        × Consumes (R.remaining reader.old) (R.remaining reader.new) f.came) }
    ensures ended { IfOk result (λ w. size_of w ≡ 0 → IsAtEnd (R.remaining reader.new)) }
    ensures needed { OnErr result (size_of window ≡ 0) }
{
    if window.from < window.to {
        return Ok(window);
    }
    let most = may_read(left);
    let got = reader.read(&mut input[..most])?;
    Ok(Window { from: 0, to: got })
}

// Copies as many bytes as are asked for, or all of the window, to a place; how many those are.
fn hand(window: Window, n: usize, input: &[u8], place: usize, room: &mut [u8]) -> usize
    requires { Inside window input.now × (place + n ≤ length room.old) }
    ensures told { result ≡ least n (window.to - window.from) }
    ensures put { room.new ≡ splice room.old place (part input.now window.from (window.from + result)) }
{
    let from = window.from;
    let k = n.min(window.to - from);
    text::write_bytes(&input[from..from + k], room, place);
    k
}

// Reads into the memory from a place to another, until it is full there or the input ends; the place behind what was read. Nothing
// else changes where a read fails.
fn read_rest<R: Read>(reader: &mut R, room: &mut [u8], from: usize, to: usize) -> io::Result<usize>
    requires { (from ≤ to) × (to ≤ length room.old) }
    ensures lower_bound { IfOk result (λ end. (from ≤ end) × (end ≤ to)) }
    ensures came { IfOk result (λ end. Consumes (R.remaining reader.old) (R.remaining reader.new) (part room.new from end)) }
    ensures ended { IfOk result (λ end. end < to → IsAtEnd (R.remaining reader.new)) }
    ensures apart { Apart room.old room.new from (to - from) }
{
    let n = streams::read_full(reader, &mut room[from..to])?;
    Ok(from + n)
}

// Puts what a report asks for into the half of the memory in which no pending sheet lies, which stays as it is: what was read and not
// handed yet comes first. An error is that of a read, which is tried only where less was there than is asked for; the pending sheet
// stays then too.
fn read_into<R: Read>(
    reader: &mut R,
    report: Report,
    window: Window,
    input: &mut Input,
    place: usize,
    room: &mut Room,
) -> io::Result<Handed>
    requires inside { Inside window input.old × Ahead report (window.to - window.from) }
    requires half { InHalf report.pending × (place ≡ free_half report.pending) }
    ensures given { IfOk result (λ h. (g : Given report window place input.old input.new room.old room.new h)
        × Consumes (R.remaining reader.old) (R.remaining reader.new) g.came) }
    ensures ended { IfOk result (λ h. (h.end - place) < asks report → IsAtEnd (R.remaining reader.new)) }
    ensures needed { OnErr result (size_of window < asks report) }
    ensures stays { OnErr result ((length input.new ≡ length input.old) × (length room.new ≡ length room.old)
        × (pending_in room.new report.pending ≡ pending_in room.old report.pending)) }
{
    let n = class::asks(report);
    if n == 0 {
        return Ok(Handed { end: place, window });
    }
    let full = fill(reader, window, report.left, input)?;
    let k = hand(full, n, input, place, room);
    let rest = Window {
        from: full.from + k,
        to: full.to,
    };
    let first = place + k;
    if k == 0 || k == n {
        return Ok(Handed {
            end: first,
            window: rest,
        });
    }
    let end = read_rest(reader, room, first, place + n)?;
    Ok(Handed { end, window: rest })
}

// The same in slices of just those lengths. Internal: callers have shown the lengths, that no more was read than may be, and where the
// pending sheet lies. docs/PROMISES.md names it, so that it takes slices as before.
pub fn read_asked<R: Read>(
    reader: &mut R,
    report: Report,
    window: Window,
    input: &mut [u8],
    place: usize,
    room: &mut [u8],
) -> io::Result<Handed>
    requires input_len { (length input.old ≡ 16384) × Inside window input.old × Ahead report (window.to - window.from) }
    requires room_len { (length room.old ≡ 65536) × InHalf report.pending × (place ≡ free_half report.pending) }
    ensures given { IfOk result (λ h. (g : Given report window place input.old input.new room.old room.new h)
        × Consumes (R.remaining reader.old) (R.remaining reader.new) g.came) }
    ensures ended { IfOk result (λ h. (h.end - place) < asks report → IsAtEnd (R.remaining reader.new)) }
    ensures needed { OnErr result (size_of window < asks report) }
    ensures stays { OnErr result ((length input.new ≡ length input.old) × (length room.new ≡ length room.old)
        × (pending_in room.new report.pending ≡ pending_in room.old report.pending)) }
{
    let Some(input) = input.as_mut_array::<INPUT>() else {
        unreachable!()
    };
    let Some(room) = room.as_mut_array::<TWO_SHEETS>() else {
        unreachable!()
    };
    read_into(reader, report, window, input, place, room)
}
