// The services that a scenario has given so far, as they are lent to a load: names and texts one after the other, and where each ends.
#![tactic(auto)]

ghost use Rattle.std.specs.Prelude.{◌≡◌, ◌≤◌, length, take, set};
ghost use Rattle.base.specs.Folds.{fold};
ghost use Rattle.load_text.specs.Lines.{line_of};
ghost use Rattle.scenario_lines.specs.Lines.{most_positions};
ghost use Rattle.scenario_services.specs.Keeping.{nothing_given, kept, after_name, after_text, after_line};
ghost use Rattle.scenario_services.specs.Lending.{position_of, with_positions, own_end, lent_positions};

use load_lent::MAX_TEXT;
use load_text::{LONGEST_NAME, line_end, part, tail};
use scenario_lines::{Command, MOST_POSITIONS, Verb};
use scenario_words::{number, piece};
use service::MAX_SERVICES;

// What is kept of the services, of a name and of a text: one more than is allowed, so that the load sees it.
const KEPT_SERVICES: usize = MAX_SERVICES + 1;

const KEPT_NAME: usize = LONGEST_NAME + 1;

const KEPT_TEXT: usize = MAX_TEXT + 1;

// The room for all names and texts that are kept.
pub const ROOM: usize = KEPT_SERVICES * (KEPT_NAME + KEPT_TEXT);

// The positions that a load is given, and from MOST_POSITIONS on those of the services given so far.
pub const POSITIONS: usize = MOST_POSITIONS + 2 * KEPT_SERVICES;

// How many services were begun; how many bytes are kept, how many of these are the last service's text, and the names and texts, as far
// as they are kept; and the positions.
// A count: a load is lent names and texts in one run of bytes, which has fixed room, as paper 01's buffer of texts.
#[derive(Clone, Copy)]
pub struct Given {
    pub begun: usize,
    pub bytes: usize,
    pub text: usize,
    pub buffer: [u8; ROOM],
    pub positions: [usize; POSITIONS],
}

// The first bytes of a text, no more than `most`.
fn leading(bytes: &[u8], most: usize) -> &[u8]
    ensures { (result.now ≡ take most bytes.now) × (length result.now ≤ most) }
{
    &bytes[..bytes.len().min(most)]
}

// A line without the newline that ends it.
pub fn bare(line: &[u8]) -> &[u8]
    ensures { result.now ≡ line_of line.now }
{
    part(line, 0, line_end(line, 0))
}

// Where the positions of the services' own ends themselves end.
fn own_end(begun: usize) -> usize
    ensures { result ≡ own_end begun }
{
    MOST_POSITIONS + 2 * begun.min(KEPT_SERVICES)
}

impl Given {
    // Nothing was given.
    pub fn nothing() -> Given
        ensures { result ≡ nothing_given }
    {
        Given {
            begun: 0,
            bytes: 0,
            text: 0,
            buffer: [0; ROOM],
            positions: [0; POSITIONS],
        }
    }

    // Keeps bytes after those that are kept, as far as they fit.
    fn keep(&mut self, bytes: &[u8])
        ensures { self.new ≡ kept bytes.now self.old }
    {
        let fitting = leading(bytes, ROOM.saturating_sub(self.bytes));
        let end = self.bytes + fitting.len();
        if end <= ROOM {
            self.buffer[self.bytes..end].copy_from_slice(fitting);
        }
        self.bytes = end;
    }

    // Begins a service: its name is kept, and its text is empty.
    fn begin(&mut self, name: &[u8])
        ensures { self.new ≡ after_name name.now self.old }
    {
        self.text = 0;
        if KEPT_SERVICES <= self.begun {
            self.begun = KEPT_SERVICES + 1;
            return;
        }
        self.keep(leading(name, KEPT_NAME));
        self.positions[MOST_POSITIONS + 2 * self.begun] = self.bytes;
        self.positions[MOST_POSITIONS + 1 + 2 * self.begun] = self.bytes;
        self.begun += 1;
    }

    // Adds to the text of the service begun last, as far as it is kept.
    fn add_text(&mut self, added: &[u8])
        ensures { self.new ≡ after_text added.now self.old }
    {
        if self.begun < 1 || KEPT_SERVICES < self.begun || KEPT_TEXT <= self.text {
            return;
        }
        let added = leading(added, KEPT_TEXT - self.text);
        self.keep(added);
        self.text += added.len();
        self.positions[MOST_POSITIONS + 1 + 2 * (self.begun - 1)] = self.bytes;
    }

    // Takes what a line gives, which is lent with the newline that ends it: a name, or a piece of a text with or without the newline.
    // A match: each verb takes another part of the line, and closures for them are no plainer.
    pub fn take_line(&mut self, verb: Verb, line: &[u8])
        ensures { self.new ≡ after_line verb line.now self.old }
    {
        match verb {
            Verb::Begin => self.begin(tail(bare(line), 8)),
            Verb::AddLine => self.add_text(tail(line, 1)),
            Verb::AddPiece => self.add_text(tail(bare(line), 1)),
            _ => {}
        }
    }

    // Puts the positions that a line gives, which are its words from the third on, to the front.
    fn read_positions(&mut self, line: &[u8], count: usize)
        requires { count ≤ most_positions }
        ensures { self.new
            ≡ record self.old { positions = fold (λ m i. set m i (position_of line.now i)) self.old.positions count } }
    {
        for i in 0..count {
            self.positions[i] = number(piece(line, b' ', i + 2)).unwrap_or(0) as usize;
        }
    }

    // Takes the positions of a line that gives them.
    pub fn take_positions(&mut self, command: Command, line: &[u8])
        ensures { self.new ≡ record self.old { positions = with_positions command line.now self.old.positions } }
    {
        if command.verb == Verb::LoadAt {
            self.read_positions(line, (command.last as usize).min(MOST_POSITIONS));
        }
    }

    // The positions that a load lends: those of the line, or the services' own.
    pub fn lent_positions(&self, command: Command) -> &[usize]
        ensures { result.now ≡ lent_positions self.now.positions command self.now.begun }
    {
        let lent = match command.verb {
            Verb::Load => self.positions.get(MOST_POSITIONS..own_end(self.begun)),
            Verb::LoadAt => self.positions.get(..command.last as usize),
            _ => None,
        };
        lent.unwrap_or(&[])
    }
}
