// What has a place among the numbers: a record of the state, or the settings of a service. One loop writes all places, and one reads them.
ghost use Rattle.std.specs.Prelude.{◌≡◌, ◌+◌, ◌≤◌, ℕ, List, get_or};
ghost use Rattle.service.specs.Numbers.{settings_from, settings_numbers};
ghost use Rattle.plain_encoding.specs.Encoding.{EncodingLaws, all_read, all_written, record_laws, settings_laws};
ghost use Rattle.plain_encoding.specs.Numbers.{all_numbers, per_place, record_from, record_numbers};

use crate::{EACH, FRONT, Numbers};
use service::{Cause, Kind, MAX_SERVICES, Phase, Record, Settings, Signal};
use std::array;

pub(crate) trait Encoded: Copy {
    ghost encoded: { Self → List ℕ };

    ghost decoded: { List ℕ → ℕ → Self };

    fn encode(self) -> [u64; EACH]
        ensures { result ≡ encoded self };

    // The value whose numbers begin at a place.
    // Two parameters: the numbers of a place have no copy of their own, so a place is told by where it begins.
    fn decode(numbers: &Numbers, at: usize) -> Self
        requires { at + per_place ≤ all_numbers }
        ensures { result ≡ decoded numbers.now at };

    // A place's numbers are sixteen, and the value is read back from them.
    ghost laws: { EncodingLaws encoded decoded };
}

impl Encoded for Record {
    ghost encoded = { record_numbers };

    ghost decoded = { record_from };

    ghost laws = { record_laws };

    fn encode(self) -> [u64; EACH] {
        [
            u64::from(self.phase),
            u64::from(self.wanted),
            u64::from(self.aside),
            u64::from(self.live),
            u64::from(self.cause),
            u64::from(self.deadline.is_some()),
            self.deadline.unwrap_or(0),
            u64::from(self.killed),
            self.not_before,
            self.last_launch,
            self.window_start,
            self.restarts,
            0,
            0,
            0,
            0,
        ]
    }

    #[tactic(auto, unfolding(crate::specs::Numbers::record_from))]
    fn decode(numbers: &Numbers, at: usize) -> Record {
        Record {
            phase: Phase::from(numbers[at]),
            wanted: numbers[at + 1] == 1,
            aside: numbers[at + 2] == 1,
            live: numbers[at + 3] == 1,
            cause: Cause::from(numbers[at + 4]),
            deadline: (numbers[at + 5] == 1).then_some(numbers[at + 6]),
            killed: numbers[at + 7] == 1,
            not_before: numbers[at + 8],
            last_launch: numbers[at + 9],
            window_start: numbers[at + 10],
            restarts: numbers[at + 11],
        }
    }
}

impl Encoded for Settings {
    ghost encoded = { settings_numbers };

    ghost decoded = { settings_from };

    ghost laws = { settings_laws };

    fn encode(self) -> [u64; EACH] {
        [
            u64::from(self.kind),
            u64::from(self.restart),
            self.delay,
            self.interval,
            self.limit,
            self.start_timeout,
            self.stop_timeout,
            u64::from(self.signal),
            self.hard,
            self.milestone,
            self.soft,
            u64::from(self.has_stop),
            0,
            0,
            0,
            0,
        ]
    }

    #[tactic(auto, unfolding(service::specs::Numbers::settings_from))]
    fn decode(numbers: &Numbers, at: usize) -> Settings {
        Settings {
            kind: Kind::from(numbers[at]),
            restart: numbers[at + 1] == 1,
            delay: numbers[at + 2],
            interval: numbers[at + 3],
            limit: numbers[at + 4],
            start_timeout: numbers[at + 5],
            stop_timeout: numbers[at + 6],
            signal: Signal::from(numbers[at + 7]),
            hard: numbers[at + 8],
            milestone: numbers[at + 9],
            soft: numbers[at + 10],
            has_stop: numbers[at + 11] == 1,
        }
    }
}

// Writes a value to each place. What a read past the last would give does not matter.
pub(crate) fn write_places<T: Encoded>(numbers: &mut Numbers, values: &[T; MAX_SERVICES])
    ensures { (d : T) → numbers.new ≡ all_written T.encoded numbers.old (λ s. get_or values.now s d) }
{
    for (s, value) in values.iter().enumerate() {
        let at = FRONT + EACH * s;
        let line = value.encode();
        numbers[at..at + EACH].copy_from_slice(&line);
    }
}

// The value of each place.
pub(crate) fn read_places<T: Encoded>(numbers: &Numbers) -> [T; MAX_SERVICES]
    ensures { (d : T) → result ≡ all_read T.decoded numbers.now d }
{
    array::from_fn(|s| T::decode(numbers, FRONT + EACH * s))
}
