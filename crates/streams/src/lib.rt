#![tactic(auto)]

// Reading a stream whose length nobody tells.
ghost use Rattle.std.specs.Prelude.{◌<◌, ◌≤◌, ◌≡◌, ℕ, length, take, IfOk, OnErr};
ghost use Rattle.std.specs.Io.{ReadsAtMost};
ghost use Rattle.std.specs.Io.KnownBytes.{Consumes, IsAtEnd};

use std::io;
use std::io::Read;

// Reads until the memory is full or the input ends, and answers how many bytes it put at the start of the memory. On an empty memory
// it makes no call. A read that fails ends it, and the error is that read's; what came before it lies in the memory.
pub fn read_full<R: Read>(reader: &mut R, memory: &mut [u8]) -> io::Result<usize>
    ensures in_bounds { ReadsAtMost result memory.new }
    ensures came { IfOk result (λ n. Consumes (R.remaining reader.old) (R.remaining reader.new) (take n memory.new)) }
    ensures ended { IfOk result (λ n. n < length memory.new → IsAtEnd (R.remaining reader.new)) }
    ensures failed { OnErr result ((n : ℕ) × (n ≤ length memory.new)
        × Consumes (R.remaining reader.old) (R.remaining reader.new) (take n memory.new)) }
{
    let mut done = 0;
    // A step is as long as a read was, so that no range counts it.
    while done < memory.len() {
        let n = reader.read(&mut memory[done..])?;
        if n == 0 {
            break;
        }
        done += n;
    }
    Ok(done)
}

#[cfg(test)]
mod tests {
    use super::*;
    use std::io::ErrorKind;

    // Gives one of its bytes a read, and fails once at the read that is due.
    #[derive(Drop)]
    struct Drip<'a> {
        bytes: &'a [u8],
        due: u8,
    }

    impl Read for Drip<'_> {
        fn read(&mut self, buf: &mut [u8]) -> io::Result<usize> {
            let due = self.due;
            self.due = due.saturating_sub(1);
            if due == 1 {
                return Err(io::Error::from(ErrorKind::ConnectionReset));
            }
            let most = buf.len().min(1);
            self.bytes.read(&mut buf[..most])
        }
    }

    #[test]
    fn reads_until_full_or_at_the_end(rt: HostRuntime) {
        let mut stream = Drip {
            bytes: b"abcde",
            due: 0,
        };
        let mut memory = [0u8; 3];
        let first = read_full(&mut stream, &mut memory);
        assert_eq!(rt; first.ok(), Some(3));
        assert_eq!(rt; memory, *b"abc");
        let second = read_full(&mut stream, &mut memory);
        assert_eq!(rt; second.ok(), Some(2));
        assert_eq!(rt; memory, *b"dec");
    }

    #[test]
    fn an_error_is_told_and_the_next_read_goes_on(rt: HostRuntime) {
        let mut stream = Drip {
            bytes: b"abcde",
            due: 3,
        };
        let mut memory = [0u8; 3];
        let first = read_full(&mut stream, &mut memory);
        assert_eq!(rt;
            first.err().map(|e| e.kind()),
            Some(ErrorKind::ConnectionReset)
        );
        assert_eq!(rt; memory, *b"ab\0");
        let second = read_full(&mut stream, &mut memory);
        assert_eq!(rt; second.ok(), Some(3));
        assert_eq!(rt; memory, *b"cde");
    }
}
