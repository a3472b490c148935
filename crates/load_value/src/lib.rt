// The value of a line: what quotes, backslashes, white space and comments make of its bytes.
#![tactic(auto)]

ghost use Rattle.std.specs.Prelude.{◌≡◌, ◌<◌, ◌≤◌};
ghost use Rattle.load_value.specs.Steps.{bare_step, quote_step, step_of};
ghost use Rattle.load_value.specs.Stores.{Put, Puts};
ghost use Rattle.load_value.specs.Values.{kept, close, counted, ended, scan_of, written, word_of};

use load_text::{Fault, LONGEST_NAME, Wrong, is_white};

// The longest value that a property which is no command can have: that of a name.
pub const LONGEST_WORD: usize = LONGEST_NAME;

// The room that a word is given: a byte more, so that one that is too long is not taken for a name.
pub const WORD_ROOM: usize = LONGEST_WORD + 1;

// Where the reader of a value is: after a backslash, in quotes, in a token, in a comment.
#[derive(Clone, Copy)]
pub struct Mode {
    pub escaped: bool,
    pub quoted: bool,
    pub token: bool,
    pub comment: bool,
}

// What a byte does, with the next mode: nothing more, open a quoted stretch, be kept, or end a token; or it is malformed.
// An enum: each byte does one of five things, and the walks that write end at the fifth; a Result of the other four would be matched twice.
#[derive(Clone, Copy)]
pub enum Step {
    Skip(Mode),
    Quote(Mode),
    Keep(Mode),
    Close(Mode),
    Malformed,
}

// The tokens of a value: how many they are, the room that they take with a zero byte after each, the length of the first.
#[derive(Clone, Copy)]
pub struct Sizes {
    pub tokens: usize,
    pub room: usize,
    pub first: usize,
}

impl Mode {
    // How a value begins, and where white space leaves it: no token is open.
    const BETWEEN: Mode = Mode {
        escaped: false,
        quoted: false,
        token: false,
        comment: false,
    };

    // A byte outside quotes that is neither escaped nor a backslash nor a quote.
    #[tactic(auto, unfolding(crate::specs::Steps::bare_step))]
    fn bare_step(self, b: u8) -> Step
        ensures { result ≡ bare_step self b }
    {
        if is_white(b) {
            if self.token {
                return Step::Close(Mode::BETWEEN);
            }
            return Step::Skip(Mode::BETWEEN);
        }
        if b == b'#' {
            if self.token {
                return Step::Malformed;
            }
            return Step::Skip(Mode {
                comment: true,
                ..Mode::BETWEEN
            });
        }
        Step::Keep(Mode {
            token: true,
            ..Mode::BETWEEN
        })
    }

    fn quote_step(self) -> Step
        ensures { result ≡ quote_step self }
    {
        // A closing quote leaves the token open.
        let stretch = Mode {
            quoted: !self.quoted,
            token: true,
            ..Mode::BETWEEN
        };
        if self.quoted {
            return Step::Skip(stretch);
        }
        Step::Quote(stretch)
    }

    // What a byte of a value does.
    #[tactic(auto, unfolding(crate::specs::Steps::step_of))]
    fn step(self, b: u8) -> Step
        ensures { result ≡ step_of self b }
    {
        if self.comment {
            return Step::Skip(self);
        }
        if self.escaped {
            return Step::Keep(Mode {
                escaped: false,
                token: true,
                ..self
            });
        }
        if b == b'\\' {
            return Step::Skip(Mode {
                escaped: true,
                token: true,
                ..self
            });
        }
        if b == b'"' {
            return self.quote_step();
        }
        if self.quoted {
            return Step::Keep(self);
        }
        self.bare_step(b)
    }

    // Whether a value may end in this mode, at a place, with its last quote. A last backslash comes before an open quote.
    fn ended(self, quote: usize, end: usize) -> Result<(), Fault>
        ensures { result ≡ ended self quote end }
    {
        if self.escaped {
            return Err(Wrong::LastBackslash.at(end.saturating_sub(1)));
        }
        if self.quoted {
            return Err(Wrong::OpenQuote.at(quote));
        }
        Ok(())
    }
}

impl Sizes {
    // A constant: no derive of Default makes one.
    const NONE: Sizes = Sizes {
        tokens: 0,
        room: 0,
        first: 0,
    };

    // A byte kept more: one of the first token counts for its length.
    fn with_byte(self) -> Sizes
        requires { (self.room < 9223372036854775808) × (self.first ≤ self.room) }
        ensures { result ≡ counted self (kept 0) }
    {
        let room = self.room + 1;
        if self.tokens == 0 {
            return Sizes {
                room,
                first: self.first + 1,
                ..self
            };
        }
        Sizes { room, ..self }
    }

    // A token's end more.
    fn with_end(self) -> Sizes
        requires { (self.room < 9223372036854775808) × (self.tokens ≤ self.room) }
        ensures { result ≡ counted self close }
    {
        Sizes {
            tokens: self.tokens + 1,
            room: self.room + 1,
            ..self
        }
    }
}

// The scan and the two writers walk the same steps, each with its own match: one walk would take a closure that stores into what it captures, and
// a contract on the closure's states (FoldsTo) would stand in all three.

// What a value is: the sizes of its tokens, or its first fault.
#[tactic(auto, using(crate::proofs::Loops::told_bad, crate::proofs::Loops::told_fault, crate::proofs::Loops::told_all))]
pub fn scan_value(s: &[u8]) -> Result<Sizes, Fault>
    ensures { result ≡ scan_of s.now }
{
    let mut m = Mode::BETWEEN;
    let mut z = Sizes::NONE;
    let mut quote: usize = 0;
    for (i, &b) in s.iter().enumerate() {
        match m.step(b) {
            Step::Skip(k) => m = k,
            Step::Quote(k) => {
                quote = i;
                m = k;
            }
            Step::Keep(k) => {
                z = z.with_byte();
                m = k;
            }
            Step::Close(k) => {
                z = z.with_end();
                m = k;
            }
            Step::Malformed => return Err(Wrong::Malformed.at(i)),
        }
    }
    m.ended(quote, s.len())?;
    Ok(if m.token { z.with_end() } else { z })
}

// Stores a byte where there is room, and returns the next place.
// A place beside a buffer: what does not fit is dropped and still counted (Puts), so the place goes on where a slice would end.
fn put(buffer: &mut [u8], at: usize, b: u8) -> usize
    requires { at < 9223372036854775808 }
    ensures { Put buffer.old at b buffer.new result }
{
    if at < buffer.len() {
        buffer[at] = b;
    }
    at + 1
}

// Writes a value's tokens from the start of buffer, each followed by a zero byte, and returns the place past them. What does
// not fit is dropped.
#[tactic(auto, using(crate::proofs::Loops::written_bad, crate::proofs::Loops::written_all))]
pub fn write_value(s: &[u8], buffer: &mut [u8]) -> usize
    ensures { Puts buffer.old 0 (written s.now) buffer.new result }
{
    let mut m = Mode::BETWEEN;
    let mut o: usize = 0;
    for &b in s {
        match m.step(b) {
            Step::Skip(k) | Step::Quote(k) => m = k,
            Step::Keep(k) => {
                o = put(buffer, o, b);
                m = k;
            }
            Step::Close(k) => {
                o = put(buffer, o, 0);
                m = k;
            }
            Step::Malformed => return o,
        }
    }
    if m.token {
        return put(buffer, o, 0);
    }
    o
}

// Writes the word that a value begins with from the start of buffer, and returns its length. What does not fit is dropped.
#[tactic(auto, using(crate::proofs::Loops::worded_end))]
pub fn write_word(s: &[u8], buffer: &mut [u8]) -> usize
    ensures { Puts buffer.old 0 (word_of s.now) buffer.new result }
{
    let mut m = Mode::BETWEEN;
    let mut o: usize = 0;
    for &b in s {
        match m.step(b) {
            Step::Skip(k) | Step::Quote(k) => m = k,
            Step::Keep(k) => {
                if LONGEST_WORD < o {
                    return o;
                }
                o = put(buffer, o, b);
                m = k;
            }
            Step::Close(_) | Step::Malformed => return o,
        }
    }
    o
}
