// The query: the earliest time at which a service may have something to do.
ghost use Rattle.std.specs.Prelude.{◌≡◌};
ghost use Rattle.rules.specs.Runs.{above, sooner, sooner_of};
ghost use Rattle.rules.specs.Calls.{query as queryCall, outcome, query_outcome};

use engine_wellformed::is_formed;
use service::{Record, Refusal, State, Table};

// A time above the clock, or none.
fn time_above(now: u64, d: Option<u64>) -> Option<u64>
    ensures { result ≡ above now d }
{
    d.filter(|e| now < *e)
}

// The sooner of two times, each of which may be missing.
fn sooner_of(a: Option<u64>, b: Option<u64>) -> Option<u64>
    ensures { result ≡ sooner a b }
{
    match (a, b) {
        (Some(d), Some(e)) => Some(d.min(e)),
        (None, _) => b,
        (_, None) => a,
    }
}

// The earliest time so far, and the deadline and the not-before of one more service.
fn with_times(d: Option<u64>, now: u64, r: Record) -> Option<u64>
    ensures { result ≡ sooner_of now d r }
{
    let f = sooner_of(d, time_above(now, r.deadline));
    sooner_of(f, time_above(now, Some(r.not_before)))
}

// The earliest deadline or not-before of any service above the clock.
pub fn query(t: Table, x: State) -> Result<Option<u64>, Refusal>
    ensures { query_outcome result x ≡ outcome t x queryCall }
{
    if is_formed(t, x) {
        let mut d = None;
        for i in 0..t.count {
            d = with_times(d, x.clock, x.records[i]);
        }
        return Ok(d);
    }
    Err(Refusal::IllFormed)
}
