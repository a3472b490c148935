// What each rule leaves of one service's record.
ghost use Rattle.std.specs.Prelude.{◌≡◌, true, false, ◌≤◌};
ghost use Rattle.base.specs.Folds.{pick};
ghost use Rattle.service.specs.declared.Cause.TheVariants.{User, Fell};
ghost use Rattle.service.specs.Limits.{longest_time, last_clock};
ghost use Rattle.service.specs.Records.{is_starting, moved, with_cause, with_launch, with_live};
ghost use Rattle.rules.specs.Rules.{deadline_in, abandoned, released, begun, ending, expired, left_by};
ghost use Rattle.engine_records.specs.Sound.{sound};

use crate::moment::Moment;
use crate::settling::either;
use rules::Rule;
use service::{Cause, Form, Phase, Record, Settings};

// The deadline at the end of a timeout; none where that is 0.
fn deadline_in(now: u64, timeout: u64) -> Option<u64>
    requires { (now ≤ last_clock) × (timeout ≤ longest_time) }
    ensures { result ≡ deadline_in now timeout }
{
    if timeout == 0 {
        return None;
    }
    Some(now + timeout)
}

// Rule 2: down, aside, wanted off.
fn abandon(r: Record) -> Record
    ensures { result ≡ abandoned r }
{
    Record {
        phase: Phase::Down,
        wanted: false,
        aside: true,
        ..r
    }
}

// Rule 5: waiting goes down; else cause released.
fn release(r: Record) -> Record
    ensures { result ≡ released r }
{
    if r.phase == Phase::Waiting {
        return Record {
            phase: Phase::Down,
            ..r
        };
    }
    Record {
        cause: Cause::Released,
        ..r
    }
}

// Rule 6 for any form: the phase, the live flag and the deadline as given, launched now.
fn launched(p: Phase, live: bool, d: Option<u64>, now: u64, r: Record) -> Record
    ensures { result ≡ moved p r.cause d (with_live live (with_launch now r)) }
{
    Record {
        phase: p,
        live,
        deadline: d,
        last_launch: now,
        ..r
    }
}

fn lose(user: bool, r: Record) -> Record
    ensures { result ≡ with_cause (pick user User Fell) r }
{
    Record {
        cause: either(user, Cause::User, Cause::Fell),
        ..r
    }
}

impl Moment {
    // Rule 6.
    fn begun(self) -> Record
        ensures { result ≡ begun self.settings self.now self.found }
    {
        let v = self.settings;
        let now = self.now;
        let r = self.found;
        let old = r.deadline;
        let new = deadline_in(now, v.start_timeout);
        match v.form() {
            Form::Bare => launched(Phase::Up, r.live, old, now, r),
            Form::Direct => launched(Phase::Up, true, old, now, r),
            Form::Passing | Form::Delayed => launched(Phase::Starting, true, new, now, r),
        }
    }

    // Rule 7: ending, live, stop deadline.
    fn ending(self) -> Record
        ensures { result ≡ ending self.settings self.now self.found }
    {
        let phase = Phase::Ending;
        Record {
            phase,
            live: true,
            deadline: deadline_in(self.now, self.settings.stop_timeout),
            ..self.found
        }
    }

    // Rule 8 where the service was starting.
    fn timed_out(self) -> Record
        ensures { result ≡ expired true self.settings self.now self.found }
    {
        let user = self.found.cause == Cause::User;
        Record {
            phase: Phase::Ending,
            cause: either(user, Cause::User, Cause::Failed),
            deadline: deadline_in(self.now, self.settings.stop_timeout),
            ..self.found
        }
    }

    // Rule 8.
    fn expired(self) -> Record
        ensures { result ≡ expired (is_starting self.found.phase) self.settings self.now self.found }
    {
        if self.found.phase == Phase::Starting {
            return self.timed_out();
        }
        Record {
            phase: Phase::Ending,
            killed: true,
            ..self.found
        }
    }

    // The record that a rule leaves.
    // A match: each rule of paper 01 has a case, as `left_by` of the definitions, and a table of functions would only hide which.
    fn left(self, k: Rule, user: bool) -> Record
        ensures { result ≡ left_by k user self.settings self.now self.found }
    {
        let r = self.found;
        match k {
            Rule::Lose => lose(user, r),
            Rule::Abandon => abandon(r),
            Rule::Settle => self.settled(),
            Rule::Wake => Record {
                phase: Phase::Waiting,
                ..r
            },
            Rule::Release => release(r),
            Rule::Begin => self.begun(),
            Rule::End => self.ending(),
            Rule::Expire => self.expired(),
        }
    }
}

// The record that a rule leaves; one whose times are out of range is left as it is.
pub fn leave(k: Rule, user: bool, v: Settings, now: u64, r: Record) -> Record
    ensures { result ≡ pick (sound v now r) (left_by k user v now r) r }
{
    match Moment::at(v, now, r) {
        Some(m) => m.left(k, user),
        None => r,
    }
}
