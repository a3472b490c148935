// The events: start, stop, stop all, the end of a process and the clock. Each is a call of its own, with the checks in
// paper 01's order; a refused call gives back the state it got.
ghost use Rattle.std.specs.Prelude.{◌≡◌, ◌||◌, eqb};
ghost use Rattle.base.specs.Sets.{has_bit};
ghost use Rattle.rules.specs.Events.{started_as};
ghost use Rattle.rules.specs.Calls.{start as startCall, stop as stopCall, stop_all, end as endCall, clock as clockCall, outcome, changed_outcome};

use base::has_bit;
use engine_records::{end_record, start_record, stop_record};
use engine_wellformed::{is_formed, reach_set};
use service::{Answered, LAST_CLOCK, Record, Refusal, State, Table};

fn done(x: State) -> Answered<()>
    ensures { result ≡ record { answer = Ok tt; state = x } }
{
    Answered {
        answer: Ok(()),
        state: x,
    }
}

// The record of service i after a start of s, which reaches the set m.
fn start_place(s: usize, m: u64, i: usize, r: Record) -> Record
    ensures { result ≡ started_as (eqb i s) (eqb i s || has_bit m i) r }
{
    let own = i == s;
    start_record(own, own | has_bit(m, i), r)
}

// Start s. The loop stands here and changes the state that it got: a function of its own would take and give a copy.
// Two parameters: the host keeps the table, and lends with it the state of the call before (docs/HOST.md, "Calls"; the list of calls of demand 3).
pub fn start(t: Table, mut x: State, s: usize) -> Answered<()>
    ensures { changed_outcome result ≡ outcome t x (startCall s) }
{
    if !is_formed(t, x) {
        return Answered::refused(Refusal::IllFormed, x);
    }
    if t.count <= s {
        return Answered::refused(Refusal::NoService, x);
    }
    let m = reach_set(t, s);
    for i in 0..t.count {
        x.records[i] = start_place(s, m, i, x.records[i]);
    }
    done(x)
}

// Stop s.
#[tactic(auto, using(rules::proofs::Formed::formed_few))]
pub fn stop(t: Table, mut x: State, s: usize) -> Answered<()>
    ensures { changed_outcome result ≡ outcome t x (stopCall s) }
{
    let formed = is_formed(t, x);
    let n = t.count;
    if formed {
        if s < n {
            let r = x.records[s];
            let stopped = stop_record(r);
            x.records[s] = stopped;
            return done(x);
        }
        return Answered::refused(Refusal::NoService, x);
    }
    Answered::refused(Refusal::IllFormed, x)
}

// Stop for each. The answers are written out: `done` and `refused` would cost the loop a copy of the state.
pub fn stop_all(t: Table, mut x: State) -> Answered<()>
    ensures { changed_outcome result ≡ outcome t x stop_all }
{
    if !is_formed(t, x) {
        return Answered {
            answer: Err(Refusal::IllFormed),
            state: x,
        };
    }
    for k in 0..t.count {
        x.records[k] = stop_record(x.records[k]);
    }
    Answered {
        answer: Ok(()),
        state: x,
    }
}

// The process of s has ended, good or bad.
#[tactic(auto, using(rules::proofs::Formed::formed_few))]
pub fn end(t: Table, mut x: State, s: usize, good: bool) -> Answered<()>
    ensures { changed_outcome result ≡ outcome t x (endCall s good) }
{
    if is_formed(t, x) {
        if s < t.count {
            let v = t.services[s];
            let r = x.records[s];
            if r.live {
                let q = end_record(v, x.clock, good, r);
                x.records[s] = q;
                return done(x);
            }
            return Answered::refused(Refusal::NotLive, x);
        }
        return Answered::refused(Refusal::NoService, x);
    }
    Answered::refused(Refusal::IllFormed, x)
}

// The clock shows another time.
pub fn clock(t: Table, x: State, to: u64) -> Answered<()>
    ensures { changed_outcome result ≡ outcome t x (clockCall to) }
{
    if is_formed(t, x) {
        if x.clock <= to {
            let mut later = x;
            later.clock = to;
            if to <= LAST_CLOCK {
                return done(later);
            }
            return Answered::refused(Refusal::ClockPast, x);
        }
        return Answered::refused(Refusal::ClockBack, x);
    }
    Answered::refused(Refusal::IllFormed, x)
}
