// The inputs of the loops: they follow from the number n of services, which is small, middle or large, alone. docs/BENCHMARKS.md says how.
ghost use Rattle.std.specs.Prelude.{◌<◌};
ghost use Rattle.service.specs.Limits.{max_services};

use base::single_of;
use service::{Kind, Phase, Record, Settings, State, Table};

// The numbers of services.
pub(crate) const SMALL: usize = 2;

pub(crate) const MIDDLE: usize = 8;

pub(crate) const LARGE: usize = 32;

// The clock of the states in which services are up.
pub(crate) const UP_CLOCK: u64 = 1000000;

// The number k modulo n; an n that is neither small nor middle counts as large.
pub(crate) fn modulo(k: usize, n: usize) -> usize
    // A fact: this and the two below say it each of its own answer.
    ensures { result < max_services }
{
    match n {
        SMALL => k % SMALL,
        MIDDLE => k % MIDDLE,
        _ => k % LARGE,
    }
}

// The place of service i in the order of the dependencies.
fn place_of(i: usize, n: usize) -> usize
    ensures { result < max_services }
{
    modulo(13 * (i % LARGE), n)
}

pub(crate) fn service_at(place: usize, n: usize) -> usize
    ensures { result < max_services }
{
    modulo(5 * (place % LARGE), n)
}

// The service that is `back` places before this one, as a set; the empty set where there is none.
fn dependency(place: usize, back: usize, n: usize) -> u64 {
    place
        .checked_sub(back)
        .map_or(0, |before| single_of(service_at(before, n), true))
}

fn is_internal(i: usize) -> bool {
    i % 8 == 7
}

fn settings_of(i: usize, n: usize) -> Settings {
    let place = place_of(i, n);
    Settings {
        kind: if is_internal(i) {
            Kind::Internal
        } else {
            Kind::Process
        },
        restart: true,
        hard: dependency(place, 1, n),
        milestone: dependency(place, 2, n),
        soft: dependency(place, 3, n),
        ..Settings::default()
    }
}

pub(crate) fn table_of(n: usize) -> Table {
    let mut t = Table::empty();
    for (i, v) in t.services.iter_mut().enumerate().take(n) {
        *v = settings_of(i, n);
    }
    t.count = n;
    t
}

pub(crate) fn record_of(i: usize, up: bool, not_before: u64) -> Record {
    Record {
        phase: if up { Phase::Up } else { Phase::Waiting },
        wanted: true,
        live: up && !is_internal(i),
        not_before,
        ..Record::fresh()
    }
}

// Up below the given place, waiting from there on; service 0 may have a not-before.
pub(crate) fn state_up_to(first_waiting: usize, n: usize, not_before: u64) -> State {
    let mut x = State::fresh();
    x.clock = UP_CLOCK;
    for (i, r) in x.records.iter_mut().enumerate().take(n) {
        let up = place_of(i, n) < first_waiting;
        *r = record_of(i, up, if i == 0 { not_before } else { 0 });
    }
    x
}
