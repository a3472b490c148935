// The output, collected in a buffer and written in large pieces.
ghost use Rattle.std.specs.Prelude.{◌≤◌};

use std::io;
use std::io::{Stdout, Write};

// How many bytes are collected.
const ROOM: usize = 65536;

// Where the output goes, and what is collected of it: the first `used` bytes.
// An array with a count: no BufWriter, since must-fail/byte_past_the_buffer is an edit of where it ends.
#[derive(Drop)]
pub(crate) struct Output {
    to: Stdout,
    bytes: [u8; ROOM],
    used: usize,
    ghost within: { used ≤ 65536 },
}

impl Output {
    pub(crate) fn new(to: Stdout) -> Output {
        Output {
            to,
            bytes: [0; ROOM],
            used: 0,
        }
    }
}

impl Write for Output {
    fn write(&mut self, bytes: &[u8]) -> io::Result<usize> {
        self.write_all(bytes)?;
        Ok(bytes.len())
    }

    // Collects the bytes; a full buffer is written out first.
    // A loop over bytes, inlined: most writes are of a few, and a copy of them in turns takes several times as long.
    #[inline(always)]
    fn write_all(&mut self, bytes: &[u8]) -> io::Result<()> {
        for &byte in bytes {
            if self.used == ROOM {
                self.to.write_all(&self.bytes)?;
                self.used = 0;
            }
            self.bytes[self.used] = byte;
            self.used += 1;
        }
        Ok(())
    }

    // Writes out what is collected.
    fn flush(&mut self) -> io::Result<()> {
        self.to.write_all(&self.bytes[..self.used])?;
        self.used = 0;
        Ok(())
    }
}
