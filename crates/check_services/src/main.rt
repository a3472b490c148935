// Reads names from standard input, loads the files of these names in the current folder, and writes what was loaded, or the refusal.
#![tactic(auto)]

mod buffer;
mod files;

ghost use Rattle.std.specs.Prelude.{◌≤◌, length};

use buffer::{Buffer, ENOUGH_TEXT, Unreadable};
use load_lent::{Lent, Refused};
use service::{Kind, Table};
use std::io::{Input, Read};
use std::rt::Files;
use std::{fmt, io};

// How many bytes of standard input are read, and how many of tokens there is room for.
const INPUT: usize = 65536;

const TOKENS: usize = 65536;

// A number: paper 01's, as a Refused holds it. From this one on it takes the texts to tell; the names alone give 1, 3 and 4.
const OF_TEXTS: u8 = 5;

// Why nothing was loaded.
#[derive(Clone, Copy)]
enum Failed {
    Unreadable(Unreadable),
    Refused(Refused),
}

impl From<Unreadable> for Failed {
    fn from(unreadable: Unreadable) -> Failed {
        Failed::Unreadable(unreadable)
    }
}

impl From<Refused> for Failed {
    fn from(refused: Refused) -> Failed {
        Failed::Refused(refused)
    }
}

impl fmt::Display for Failed {
    fn fmt<W: fmt::Write>(&self, f: &mut fmt::Formatter<W>) -> fmt::Result {
        match self {
            Failed::Unreadable(Unreadable(service)) => write!(f, "unreadable {service}"),
            Failed::Refused(
                Refused {
                    number,
                    service,
                    line,
                    column,
                },
            ) => write!(
                f,
                "refused {number} service {service} line {line} column {column}"
            ),
        }
    }
}

// Loads the names with their texts. No file is opened where the names alone are refused; a number of texts says then only that these
// are missing.
fn load(
    files: &impl Files,
    names: &[u8],
    buffer: &mut Buffer,
    tokens: &mut [u8],
) -> Result<Table, Failed> {
    buffer.fill(files, names, 0)?;
    if let Err(refused) = buffer.load(tokens).answer
        && refused.number < OF_TEXTS // A number: Refused has paper 01's.
    {
        return Err(Failed::Refused(refused));
    }
    buffer.fill(files, names, ENOUGH_TEXT)?;
    let loaded = buffer.load(tokens);
    loaded.answer?;
    Ok(loaded.table)
}

// A match: Kind and Display are of other crates, so that no impl may stand here, and the library of services prints nothing.
fn write_kind(rt: &impl Print, kind: Kind) -> io::Result<()> {
    match kind {
        Kind::Process => println!(rt; " process"),
        Kind::Scripted => println!(rt; " scripted"),
        Kind::Internal => println!(rt; " internal"),
    }
}

// A line for each service, and how many there are.
fn write_services(rt: &impl Print, table: Table, lent: Lent) -> io::Result<()> {
    for (s, settings) in table.services.iter().take(table.count).enumerate() {
        print!(rt; "{s} ")?;
        rt.write_all(lent.name(s))?;
        write_kind(rt, settings.kind)?;
    }
    println!(rt; "ok {}", table.count)
}

// Reads until the room is full, the input ends or a read fails, and answers how many bytes it put at the start of the room.
// No Vec: the room is an array, so that nothing ends for want of memory.
// Three functions: each program has its own, since no crate that they share reads.
fn read_full(input: &mut impl Read, room: &mut [u8]) -> usize
    ensures { result ≤ length room.new }
{
    let mut used = 0;
    // A while: a read says how far it came, and no index counts up.
    while used < room.len() {
        let Ok(n @ 1..) = input.read(&mut room[used..]) else {
            break;
        };
        used += n;
    }
    used
}

fn main(rt: HostRuntime) -> io::Result<()> {
    let mut names = [0; INPUT];
    let used = read_full(&mut rt.reader(), &mut names);
    let mut buffer = Buffer::empty();
    let mut tokens = [0u8; TOKENS];
    match load(&rt, &names[..used], &mut buffer, &mut tokens) {
        Ok(table) => write_services(&rt, table, buffer.lent()),
        Err(failed) => println!(rt; "{failed}"),
    }
}
