// The loops: each makes a given number of turns of one call, and gives the checksum of the answers and of the last state.
use crate::checksum::{action_number, record_number, refusal_number, state_taken_up, taken_up};
use crate::inputs::{LARGE, UP_CLOCK, modulo, record_of, service_at, state_up_to, table_of};
use service::{Answered, MAX_SERVICES, Refusal, State, Table};

// The places that suffice for any run: four for each service.
const PLACES: usize = 4 * MAX_SERVICES;

// The places among which is the one that the checksum takes up.
const TAKEN_UP: usize = 2 * LARGE;

// The time of the clock reading in turn k.
pub(crate) fn time_in(k: usize) -> u64 {
    UP_CLOCK + (k % 4294967296) as u64
}

// The clock, one more, within the range of the clock.
fn later(then: u64) -> u64 {
    then % 281474976710656 + 1
}

// Keeps the state that an event gave, and answers its answer.
pub(crate) fn kept(x: &mut State, y: Answered<()>) -> Result<(), Refusal> {
    *x = y.state;
    y.answer
}

// A loop over n services.
#[derive(Clone, Copy)]
pub(crate) struct Loop {
    pub(crate) n: usize,
    pub(crate) turns: usize,
}

impl Loop {
    // In turn k an event of service k modulo n, where all are up; its record is then as at first again.
    pub(crate) fn events<F>(self, event: F) -> u64
    where
        F: Fn(&Table, &mut State, usize, usize) -> Result<(), Refusal>,
        requires { F.IsAlwaysCallable event }
    {
        let n = self.n;
        let t = table_of(n);
        let mut x = state_up_to(n, n, 0);
        let mut sum = 0;
        for k in 0..self.turns {
            let s = modulo(k, n);
            let answer = event(&t, &mut x, s, k);
            let number = answer.map_or_else(refusal_number, |()| 0);
            sum = taken_up(sum, number | record_number(x.records[s]));
            x.records[s] = record_of(s, true, 0);
        }
        state_taken_up(sum, x, n)
    }

    // Requests for the next action, where services wait from a place on; the record of the service at place n / 2 is put back after each.
    pub(crate) fn requests(self, first_waiting: usize) -> u64 {
        let n = self.n;
        let t = table_of(n);
        let mut x = state_up_to(first_waiting, n, 0);
        let s = service_at(n / 2, n);
        let r = x.records[s];
        let mut sum = 0;
        for _ in 0..self.turns {
            x.clock = later(x.clock);
            let y = engine::next_action(t, x);
            x = y.state;
            let number = y.answer.map_or_else(refusal_number, action_number);
            sum = taken_up(sum, number);
            x.records[s] = r;
        }
        state_taken_up(sum, x, n)
    }

    // Queries, where half of the services are up.
    pub(crate) fn queries(self) -> u64 {
        let n = self.n;
        let t = table_of(n);
        let mut x = state_up_to(n / 2, n, 2000000);
        let mut sum = 0;
        for _ in 0..self.turns {
            x.clock = later(x.clock);
            let earliest = engine::query(t, x);
            let number = earliest.map_or_else(refusal_number, |time| time.unwrap_or(0));
            sum = taken_up(sum, number);
        }
        state_taken_up(sum, x, n)
    }

    // Runs to quiet of the same state at clock k: the last of the chain is started.
    pub(crate) fn runs(self) -> u64 {
        let n = self.n;
        let t = table_of(n);
        let before = engine::start(t, State::fresh(), service_at(LARGE - 1, n)).state;
        let mut services = [0u64; PLACES];
        let mut actions = [0u64; PLACES];
        let s = n % TAKEN_UP;
        let mut x = before;
        let mut sum = 0;
        for k in 0..self.turns {
            x = before;
            x.clock = k as u64;
            let y = engine::run_to_quiet(t, x, &mut services, &mut actions);
            x = y.state;
            let number = y.answer.map_or_else(refusal_number, |count| count as u64);
            sum = taken_up(sum, number);
            sum = taken_up(taken_up(sum, services[s]), actions[s]);
        }
        state_taken_up(sum, x, n)
    }
}
