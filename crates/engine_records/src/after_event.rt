// What an event makes of one service's record: start, stop and the end of its process.
ghost use Rattle.std.specs.Prelude.{◌≡◌, true, false};
ghost use Rattle.base.specs.Folds.{pick};
ghost use Rattle.service.specs.declared.Cause.TheVariants.{User, Fell};
ghost use Rattle.service.specs.Records.{is_none, with_cause};
ghost use Rattle.rules.specs.Events.{revived_cause, started_as, stopped_phase, stopped, dead, started_up, brings, ended_as};
ghost use Rattle.engine_records.specs.Sound.{sound};

use crate::moment::Moment;
use crate::settling::{at_rest, either};
use service::{Cause, Phase, Record, Settings};

// User or failed becomes released.
fn revived(c: Cause) -> Cause
    ensures { result ≡ revived_cause c }
{
    match c {
        Cause::User | Cause::Failed => Cause::Released,
        Cause::None | Cause::Released | Cause::Fell => c,
    }
}

// The record after a start of a service that is this one or not, and that reaches this one or not.
pub fn start_record(own: bool, reached: bool, r: Record) -> Record
    ensures { result ≡ started_as own reached r }
{
    let c = r.cause;
    Record {
        cause: either(reached, revived(c), c),
        wanted: r.wanted | own,
        aside: r.aside & !reached,
        not_before: either(reached, 0, r.not_before),
        ..r
    }
}

// Down or waiting gives down.
fn stop_phase(p: Phase) -> Phase
    ensures { result ≡ stopped_phase p }
{
    if p.is_active() { p } else { Phase::Down }
}

// The record after a stop.
pub fn stop_record(r: Record) -> Record
    ensures { result ≡ stopped r }
{
    let p = r.phase;
    let running = p.is_active();
    Record {
        phase: stop_phase(p),
        cause: either(running, Cause::User, r.cause),
        wanted: false,
        aside: !running | r.aside,
        ..r
    }
}

// The process is gone.
fn dead_record(r: Record) -> Record
    ensures { result ≡ dead r }
{
    Record { live: false, ..r }
}

// A start that has ended well: up, no deadline, the cause kept.
fn started_up(r: Record) -> Record
    ensures { result ≡ started_up r }
{
    Record {
        phase: Phase::Up,
        deadline: None,
        ..r
    }
}

// The end of a start brings the service up.
fn brings_up(v: Settings, good: bool) -> bool
    ensures { result ≡ brings v good }
{
    good & v.form().is_passing()
}

// The end of a process that was up: no cause becomes fell.
fn fallen(d: Record, c: Cause) -> Record
    ensures { result ≡ with_cause (pick (is_none c) Fell c) d }
{
    Record {
        cause: either(c == Cause::None, Cause::Fell, c),
        ..d
    }
}

impl Moment {
    // The record after the end of its process.
    // A match: each phase has a case, as `ended_as` of the definitions.
    fn ended(self, good: bool) -> Record
        ensures { result ≡ ended_as self.found.phase self.settings self.now (brings self.settings good) self.found }
    {
        let r = self.found;
        let d = dead_record(r);
        match r.phase {
            Phase::Down | Phase::Waiting => d,
            Phase::Starting => {
                if brings_up(self.settings, good) {
                    started_up(d)
                } else {
                    at_rest(false, true, d)
                }
            }
            Phase::Up => fallen(d, r.cause),
            Phase::Ending => {
                let dead = Moment {
                    settings: self.settings,
                    now: self.now,
                    found: d,
                };
                dead.settled()
            }
        }
    }
}

// The record after the end of its process; one whose times are out of range is left as it is.
// Three parameters: a caller has them apart, in table and state, and what is in range becomes a Moment here.
pub fn end_record(v: Settings, now: u64, good: bool, r: Record) -> Record
    ensures { result ≡ pick (sound v now r) (ended_as r.phase v now (brings v good) r) r }
{
    match Moment::at(v, now, r) {
        Some(m) => m.ended(good),
        None => r,
    }
}
