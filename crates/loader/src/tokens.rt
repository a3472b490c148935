// What is kept of a service in the lent buffer, the tokens of its command and of its stop-command: where they are, and writing them there.
ghost use Rattle.std.specs.Prelude.{◌≡◌, ◌+◌, ◌≤◌, ◌<◌, length};
ghost use Rattle.std.proofs.lemmas.List.Edits.{sets};
ghost use Rattle.load_lent.specs.Checks.{longest_text};
ghost use Rattle.loader.specs.Short.{most_room};
ghost use Rattle.loader.specs.Tokens.{command_bytes, command_count, kept_of, places_of, room_of};

use load_description::{Description, value_at};
use load_value::{scan_value, write_value};

// Where the tokens of a command begin in the lent buffer, and how many they are, 0 of no command: no Option beside the count.
// A place and a count: a table of offsets into the host's buffer, which a slice of it would keep lent.
#[derive(Clone, Copy)]
pub struct Tokens {
    pub at: usize,
    pub count: usize,
}

// Where those of a service's command and stop-command are.
#[derive(Clone, Copy)]
pub struct Commands {
    pub start: Tokens,
    pub stop: Tokens,
}

impl Commands {
    // Those of a service that has neither.
    pub const NONE: Commands = Commands {
        start: Tokens { at: 0, count: 0 },
        stop: Tokens { at: 0, count: 0 },
    };
}

// How many tokens a command has, and the room that they take.
#[derive(Clone, Copy)]
pub struct Measured {
    pub count: usize,
    pub room: usize,
}

impl Measured {
    // That of no command.
    // A constant: no derive of Default makes one.
    const NONE: Measured = Measured { count: 0, room: 0 };
}

// Where what is kept of a service is, and the place past it.
#[derive(Clone, Copy)]
pub struct Place {
    pub commands: Commands,
    pub end: usize,
}

// The command whose value begins at an offset of a text.
#[tactic(auto, using(crate::proofs::Kept::measuring))]
fn measure(text: &[u8], at: Option<usize>) -> Measured
    ensures { result ≡ record { count = command_count text.now at; room = length (command_bytes text.now at) } }
{
    let sizes = at.and_then(|at| scan_value(value_at(text, at)).ok());
    match sizes {
        Some(sizes) if sizes.tokens != 0 => Measured {
            count: sizes.tokens,
            room: sizes.room,
        },
        _ => Measured::NONE,
    }
}

// Where what is kept of a service is, from the place o on.
#[tactic(auto, using(crate::proofs::Kept::placing))]
pub(crate) fn place_service(text: &[u8], d: &Description, o: usize) -> Place
    requires { (length text.now ≤ longest_text) × (o < 4294967296) }
    ensures { (result ≡ record { commands = places_of o text.now d.now; end = o + room_of text.now d.now }) × (room_of text.now d.now ≤ most_room) }
{
    let start = measure(text, d.kept.command);
    let stop = measure(text, d.kept.stop);
    let between = o + start.room;
    Place {
        commands: Commands {
            start: Tokens {
                at: o,
                count: start.count,
            },
            stop: Tokens {
                at: between,
                count: stop.count,
            },
        },
        end: between + stop.room,
    }
}

// Writes the tokens of a command to their place. What does not fit is dropped.
#[tactic(auto, using(crate::proofs::Kept::putting))]
fn write_command(text: &[u8], at: Option<usize>, to: Tokens, buffer: &mut [u8])
    requires { to.count ≡ command_count text.now at }
    ensures { buffer.new ≡ sets buffer.old to.at (command_bytes text.now at) }
{
    let Some(at) = at else {
        return;
    };
    let place = to.at;
    if to.count != 0 && place <= buffer.len() {
        write_value(value_at(text, at), &mut buffer[place..]);
    }
}

// Writes what is kept of a service to its places. What does not fit is dropped.
#[tactic(auto, using(crate::proofs::Kept::following))]
pub(crate) fn write_service(text: &[u8], d: &Description, to: Commands, buffer: &mut [u8])
    requires { to ≡ places_of to.start.at text.now d.now }
    ensures { buffer.new ≡ sets buffer.old to.start.at (kept_of text.now d.now) }
{
    write_command(text, d.kept.command, to.start, buffer);
    write_command(text, d.kept.stop, to.stop, buffer);
}
