// List 24: whether a table and a state are well formed; and what a service reaches by its dependencies.
#![tactic(auto)]

ghost use Rattle.std.specs.Prelude.{◌≡◌, ◌&&◌, ◌≤◌, leb, ltb};
ghost use Rattle.base.specs.Folds.{pick, implies};
ghost use Rattle.base.specs.Links.{reach};
ghost use Rattle.base.proofs.Filled.{Filled};
ghost use Rattle.service.specs.Limits.{max_services};
ghost use Rattle.rules.specs.Dependencies.{all_links};
ghost use Rattle.rules.specs.WellFormed.{links_inside, settings_in_range, deadline_in_range, times_in_range, shaped, formed};
ghost use Rattle.engine_wellformed.specs.Place.{place_formed};

use base::is_within;
use links::{has_cycle, reach_of};
use service::{
    Cause, Form, LAST_CLOCK, LAST_TIME, LONGEST_TIME, MAX_COUNT, MAX_SERVICES, Phase, Record,
    Settings, State, Table,
};

// No dependency lies beyond the n services.
fn links_inside(n: usize, v: Settings) -> bool
    ensures { result ≡ links_inside n v }
{
    is_within(n, v.hard) & is_within(n, v.milestone) & is_within(n, v.soft)
}

// No setting is outside its range.
pub fn settings_in_range(v: Settings) -> bool
    ensures { result ≡ settings_in_range v }
{
    (v.delay <= LONGEST_TIME)
        & (v.interval <= LONGEST_TIME)
        & (v.start_timeout <= LONGEST_TIME)
        & (v.stop_timeout <= LONGEST_TIME)
        & (v.limit <= MAX_COUNT)
}

fn deadline_in_range(d: Option<u64>) -> bool
    ensures { result ≡ deadline_in_range d }
{
    d.is_none_or(|e| e <= LAST_TIME)
}

// No time of a record is past its bound, nor its count.
pub fn times_in_range(now: u64, r: Record) -> bool
    ensures { result ≡ times_in_range now r }
{
    (r.last_launch <= now)
        & (r.window_start <= now)
        & deadline_in_range(r.deadline)
        & (r.not_before <= LAST_TIME)
        & (r.restarts <= MAX_COUNT)
}

fn implied(a: bool, b: bool) -> bool
    ensures { result ≡ implies a b }
{
    !a | b
}

// The record is one of those that list 24 lets pass.
fn is_shaped(f: Form, p: Phase, live: bool, c: Cause) -> bool
    ensures { result ≡ shaped f p live c }
{
    let free = c == Cause::None;
    match p {
        Phase::Down | Phase::Waiting => !live & free,
        Phase::Starting => f.starts_first() & live,
        Phase::Up => implied(live, f.lives_up()) & implied(free & f.lives_up(), live),
        Phase::Ending => live & !free,
    }
}

// List 24 at one service of n.
fn place_formed(n: usize, now: u64, v: Settings, r: Record) -> bool
    ensures { result ≡ place_formed n now v r }
{
    links_inside(n, v)
        & settings_in_range(v)
        & (times_in_range(now, r) & is_shaped(v.form(), r.phase, r.live, r.cause))
}

// Each service's dependencies of any kind.
fn link_rows(t: Table) -> [u64; MAX_SERVICES]
    requires { t.count ≤ max_services }
    ensures { Filled 0 (all_links t) max_services result t.count }
{
    let mut rows = [0u64; MAX_SERVICES];
    for i in 0..t.count {
        rows[i] = t.services[i].all_links();
    }
    rows
}

// The table and the state are well formed, the cycle included. Both loops stand here, since a function of its own for one of them
// would copy the table once more in every call of the engine. One loop for both gains at 2 and 8 services and loses at 32
// (docs/BENCHMARKS.md).
pub fn is_formed(t: Table, x: State) -> bool
    ensures { result ≡ formed t x }
{
    if MAX_SERVICES < t.count {
        return false;
    }
    let mut rows = [0u64; MAX_SERVICES];
    for i in 0..t.count {
        rows[i] = t.services[i].all_links();
    }
    let mut ok = true;
    // A loop: it has no branch, where all would leave it and lend table and state to a closure.
    for s in 0..t.count {
        ok &= place_formed(t.count, x.clock, t.services[s], x.records[s]);
    }
    let cycle = has_cycle(t.count, &rows);
    (x.clock <= LAST_CLOCK) & ok & !cycle
}

// The services that s reaches by any kind, or none where the set has no such service.
pub fn reach_set(t: Table, s: usize) -> u64
    ensures { result ≡ pick (leb t.count max_services && ltb s t.count) (reach (all_links t) t.count s) 0 }
{
    if t.count <= MAX_SERVICES {
        let rows = link_rows(t);
        return reach_of(t.count, &rows, s);
    }
    0
}
