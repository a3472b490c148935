// What the loader is lent: names and the texts of their files, one after the other, and where each ends.
ghost use Rattle.std.specs.Prelude.{◌*◌, ◌≤◌, length};

use crate::files::open_regular;
use load_lent::{Lent, MAX_TEXT, MAX_TEXTS};
use load_text::LONGEST_NAME;
use loader::{Loaded, load};
use service::MAX_SERVICES;
use std::io;
use std::io::Read;
use std::rt::Files;

// What is kept of the names and of each text: one more than is allowed, so that the load sees it.
const KEPT_NAMES: usize = MAX_SERVICES + 1;

const KEPT_NAME: usize = LONGEST_NAME + 1;

const KEPT_TEXT: usize = MAX_TEXT + 1;

// Once this many bytes of text were read, more than the most that is allowed, no further file is opened.
pub(crate) const ENOUGH_TEXT: usize = MAX_TEXTS + 1;

// The room for all names that are kept, and for the texts: the last may be read when all but one of those bytes were.
const ROOM: usize = KEPT_NAMES * KEPT_NAME + MAX_TEXTS + KEPT_TEXT;

// A service whose file is no regular one, or will not open or read.
#[derive(Clone, Copy)]
pub(crate) struct Unreadable(pub(crate) usize);

// The first `used` bytes are lent, and where the name and the text of each of the first `services` services end.
// Two arrays with counts: paper 01's text buffer is one repeated array, and there is always memory for what the limits allow.
#[derive(Drop)]
pub(crate) struct Buffer {
    bytes: [u8; ROOM],
    used: usize,
    ends: [usize; 2 * KEPT_NAMES],
    services: usize,
    // How many more bytes of text are read until no further file is opened.
    left: usize,
    ghost bytes_within: { used ≤ length bytes },
    ghost ends_within: { 2 * services ≤ length ends },
}

impl Buffer {
    pub(crate) fn empty() -> Buffer {
        Buffer {
            bytes: [0; ROOM],
            used: 0,
            ends: [0; 2 * KEPT_NAMES],
            services: 0,
            left: 0,
        }
    }

    // Adds bytes, as far as they fit.
    fn push(&mut self, bytes: &[u8]) {
        let end = self.used + bytes.len().min(ROOM - self.used);
        self.bytes[self.used..end].copy_from_slice(&bytes[..end - self.used]);
        self.used = end;
    }

    // Adds what is kept of a file, as far as it fits.
    fn read(&mut self, file: &mut impl Read) -> io::Result<()> {
        let end = self.used + KEPT_TEXT.min(ROOM - self.used);
        // A while: a read says how far it came, and no index counts up.
        while self.used < end {
            let n = file.read(&mut self.bytes[self.used..end])?;
            if n == 0 {
                break;
            }
            self.used += n;
        }
        Ok(())
    }

    // Adds what is kept of the file of this name, unless enough text was read before; none where it is unreadable.
    fn read_text(&mut self, files: &impl Files, name: &[u8]) -> Option<()> {
        if self.left == 0 {
            return Some(());
        }
        let begin = self.used;
        self.read(&mut open_regular(files, name)?).ok()?;
        self.left = self.left.saturating_sub(self.used.saturating_sub(begin));
        Some(())
    }

    // Adds a service, its name and its text where it is to be read; none past those that are kept.
    fn add(&mut self, files: &impl Files, name: &[u8]) -> Result<(), Unreadable> {
        let s = self.services;
        if KEPT_NAMES <= s {
            return Ok(());
        }
        self.push(name);
        self.ends[2 * s] = self.used;
        self.read_text(files, name).ok_or(Unreadable(s))?;
        self.ends[2 * s + 1] = self.used;
        self.services = s + 1;
        Ok(())
    }

    // Holds each name, one on a line, with its text, until `text_bytes` bytes of text were read.
    pub(crate) fn fill(
        &mut self,
        files: &impl Files,
        names: &[u8],
        text_bytes: usize,
    ) -> Result<(), Unreadable> {
        self.used = 0;
        self.services = 0;
        self.left = text_bytes;
        for line in names.split_inclusive(|b| *b == b'\n') {
            let name = line.strip_suffix(b"\n").unwrap_or(line);
            self.add(files, &name[..name.len().min(KEPT_NAME)])?;
        }
        Ok(())
    }

    pub(crate) fn lent(&self) -> Lent<'_, '_> {
        Lent {
            bytes: &self.bytes[..self.used],
            ends: &self.ends[..2 * self.services],
        }
    }

    pub(crate) fn load(&self, tokens: &mut [u8]) -> Loaded {
        let lent = self.lent();
        load(lent.bytes, lent.ends, tokens)
    }
}
