// The checksum: answers and states as numbers, taken up one after the other.
use crate::inputs::LARGE;
use service::{Action, Record, Refusal, State};

// The checksum with one number more.
pub(crate) fn taken_up(sum: u64, number: u64) -> u64 {
    sum % 4294967296 * 31 + number % 4294967296
}

// Phase, cause and flags in one number: each has bits of its own.
pub(crate) fn record_number(r: Record) -> u64 {
    u64::from(r.phase)
        | u64::from(r.cause) % 8 << 3
        | u64::from(r.wanted) << 6
        | u64::from(r.aside) << 7
        | u64::from(r.live) << 8
        | u64::from(r.killed) << 9
}

pub(crate) fn action_number(a: Action) -> u64 {
    match a {
        Action::Quiet => 0,
        _ => 1 + a.service() % LARGE as u64 + LARGE as u64 * (a.number() % 16),
    }
}

pub(crate) fn refusal_number(k: Refusal) -> u64 {
    u64::from(k) % 32 << 10
}

// The checksum with some numbers more.
pub(crate) fn all_taken_up<const N: usize>(sum: u64, numbers: [u64; N]) -> u64 {
    numbers
        .iter()
        .fold(sum, |sum, number| taken_up(sum, *number))
}

fn record_taken_up(sum: u64, r: Record) -> u64 {
    let deadline = r.deadline.map_or(0, |e| 1 + e % 4294967295);
    all_taken_up(
        sum,
        [
            record_number(r),
            deadline,
            r.not_before,
            r.last_launch,
            r.window_start,
            r.restarts,
        ],
    )
}

// The checksum with the clock and the records of n services.
pub(crate) fn state_taken_up(sum: u64, x: State, n: usize) -> u64 {
    let clocked = taken_up(sum, x.clock);
    x.records
        .iter()
        .take(n)
        .fold(clocked, |sum, r| record_taken_up(sum, *r))
}
