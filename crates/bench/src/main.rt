// The benchmark's program: `bench LOOP SERVICES COUNT` makes COUNT turns of a loop over 2, 8 or 32 services and writes a
// checksum of the answers. The same loops in Rust are in tools/src/bin/bench.rs, which says what each does.
#![tactic(auto)]

mod checksum;
mod inputs;
mod loads;
mod loops;

use loops::{Loop, kept, time_in};
use std::io;
use std::io::Input;
use std::rt::Env;

// How many bytes of an argument are read.
const WORD: usize = 32;

// The number that the bytes write in decimal digits. Not by `parse`: a number too long counts by its last digits, and a byte that is no digit
// by its last bits.
fn number_of(digits: &[u8]) -> usize {
    digits.iter().fold(0usize, |number, digit| {
        number % 1000000000000000 * 10 + (digit % 16) as usize
    })
}

// Argument i as a number; 0 where it is missing or too long.
fn number_argument(rt: &impl Env, i: usize) -> usize {
    let mut word = [0u8; WORD];
    match rt.arg(i, &mut word) {
        Ok(length) => number_of(&word[..length]),
        Err(_) => 0,
    }
}

// The checksum of the loop of a name, which is filled up with spaces; 0 where none has it.
// A match: it is made once, before the turns, and what differs within a loop is a closure.
fn sum_of(rt: &impl Input, name: &[u8], turns: Loop) -> u64 {
    match name {
        b"next-quiet  " => turns.requests(turns.n),
        b"next-launch " => turns.requests(turns.n / 2),
        b"start       " => turns.events(|t, x, s, _| kept(x, engine::start(*t, *x, s))),
        b"stop        " => turns.events(|t, x, s, _| kept(x, engine::stop(*t, *x, s))),
        b"stop-all    " => turns.events(|t, x, _, _| kept(x, engine::stop_all(*t, *x))),
        b"end         " => turns.events(|t, x, s, _| kept(x, engine::end(*t, *x, s, false))),
        b"clock       " => turns.events(|t, x, _, k| kept(x, engine::clock(*t, *x, time_in(k)))),
        b"query       " => turns.queries(),
        b"run         " => turns.runs(),
        b"load        " => turns.loads(rt),
        _ => 0,
    }
}

fn main(rt: HostRuntime) -> io::Result<()> {
    let mut word = [b' '; WORD];
    // Where the word is longer, its first bytes are there.
    let _ = rt.arg(1, &mut word);
    let turns = Loop {
        n: number_argument(&rt, 2),
        turns: number_argument(&rt, 3),
    };
    let sum = sum_of(&rt, &word[..12], turns);
    println!(rt; "{sum}")
}
