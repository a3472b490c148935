// The loop of loads. Names and texts come from standard input, one after the other.
ghost use Rattle.std.specs.Prelude.{◌<◌, ◌≤◌, length};
ghost use Rattle.service.specs.Limits.{max_services};

use crate::checksum::{all_taken_up, taken_up};
use crate::inputs::{LARGE, MIDDLE, SMALL, modulo};
use crate::loops::Loop;
use loader::{Loaded, load};
use std::array;
use std::io::{Input, Read};

// How many bytes a name has, a text, and both.
const NAME: usize = 3;

const TEXT: usize = 1024;

const BOTH: usize = NAME + TEXT;

// How many bytes of standard input are read.
const INPUT: usize = BOTH * LARGE;

// How many positions the services have: for each its name's end and its text's.
const ENDS: usize = 2 * LARGE;

// The lent positions.
fn positions() -> [usize; ENDS] {
    array::from_fn(|i| BOTH * (i / 2) + if i % 2 == 0 { NAME } else { BOTH })
}

// The checksum with the answer of a load, and with the size of the table and the settings of service s where it was accepted.
fn load_taken_up(sum: u64, loaded: &Loaded, s: usize) -> u64
    requires { s < max_services }
{
    match loaded.answer {
        Ok(()) => {
            let v = loaded.table.services[s];
            let count = loaded.table.count as u64;
            all_taken_up(sum, [count, v.start_timeout, v.hard, v.milestone, v.soft])
        }
        Err(refused) => {
            let number = refused.number as u64;
            let service = refused.service as u64;
            all_taken_up(
                sum,
                [number, service, refused.line as u64, refused.column as u64],
            )
        }
    }
}

// Reads until the room is full, the input ends or a read fails, and answers how many bytes it put at the start of the room.
// No Vec: the room is an array, so that nothing ends for want of memory.
// Three functions: each program has its own, since no crate that they share reads.
fn read_full(input: &mut impl Read, room: &mut [u8]) -> usize
    ensures { result ≤ length room.new }
{
    let mut used = 0;
    // A while: a read says how far it came, and no index counts up.
    while used < room.len() {
        let Ok(n @ 1..) = input.read(&mut room[used..]) else {
            break;
        };
        used += n;
    }
    used
}

impl Loop {
    // Loads of n services; of each the answer, and one byte of the tokens. An n that is neither small nor middle counts as large.
    pub(crate) fn loads(self, rt: &impl Input) -> u64 {
        let mut lent = [0; INPUT];
        let used = read_full(&mut rt.reader(), &mut lent);
        let positions = positions();
        let count = match self.n {
            SMALL => 2 * SMALL,
            MIDDLE => 2 * MIDDLE,
            _ => ENDS,
        };
        let ends = &positions[..count];
        let mut tokens = [0u8; 65536];
        let mut sum = 0;
        for k in 0..self.turns {
            let loaded = load(&lent[..used], ends, &mut tokens);
            sum = load_taken_up(sum, &loaded, modulo(k, self.n));
            sum = taken_up(sum, u64::from(tokens[k % 1024]));
        }
        sum
    }
}
