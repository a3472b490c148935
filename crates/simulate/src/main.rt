// Reads a scenario from standard input, and writes the answer to each of its calls.
#![tactic(auto)]

mod filling;
mod listing;
mod output;
mod player;
mod writing;

ghost use Rattle.std.specs.Prelude.{◌≤◌, length};

use output::Output;
use player::Player;
use std::io;
use std::io::{Input, Read, Write};

// What is read of a scenario.
const MOST_BYTES: usize = 262144;

// Reads until the room is full, the input ends or a read fails, and answers how many bytes it put at the start of the room.
// No Vec: the room is an array, so that nothing ends for want of memory.
// Three functions: each program has its own, since no crate that they share reads.
fn read_full(input: &mut impl Read, room: &mut [u8]) -> usize
    ensures { result ≤ length room.new }
{
    let mut used = 0;
    // A while: a read says how far it came, and no index counts up.
    while used < room.len() {
        let Ok(n @ 1..) = input.read(&mut room[used..]) else {
            break;
        };
        used += n;
    }
    used
}

fn main(rt: HostRuntime) -> io::Result<()> {
    let mut scenario = [0; MOST_BYTES + 1];
    let used = read_full(&mut rt.reader(), &mut scenario[..MOST_BYTES]);
    // The last line ends in a newline as every other: what that adds is at most a line of no bytes.
    scenario[used] = b'\n';
    let mut out = Output::new(rt.stdout());
    let mut player = Player::new();
    let lines = scenario[..=used].split_inclusive(|b| *b == b'\n');
    for (number, line) in (1u64..).zip(lines) {
        player.obey(&mut out, number, line)?;
    }
    out.flush()
}
