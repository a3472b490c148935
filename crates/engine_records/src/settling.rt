// Settling: the record of a service that has ended, by its cause; a fall counted with the restart window, limit and delay. Also what
// other changes of a record share: a choice by a test, and a record at rest.
ghost use Rattle.std.specs.Prelude.{◌≡◌, true, false, suc, ◌≤◌};
ghost use Rattle.base.specs.Folds.{pick};
ghost use Rattle.service.specs.Limits.{max_count};
ghost use Rattle.service.specs.declared.Cause.TheVariants.{Fell};
ghost use Rattle.rules.specs.Settling.{window_over, limit_reached, settled, settled_as};
ghost use Rattle.engine_records.specs.Rest.{at_rest, fall_counted};

use crate::moment::Moment;
use service::{Cause, Phase, Record};

// a where the test holds, and else b.
pub(crate) fn either<T: Copy>(test: bool, a: T, b: T) -> T
    ensures { result ≡ pick test a b }
{
    if test { a } else { b }
}

// The count in the window: none where the window is over.
// A function: that the count is no more than it was is promised here, which `either` cannot say.
fn window_count(over: bool, n: u64) -> u64
    ensures { (result ≡ pick over 0 n) × (result ≤ n) }
{
    if over { 0 } else { n }
}

// One more, unless the count is to stay.
fn next_count(stays: bool, n: u64) -> u64
    requires { n ≤ max_count }
    ensures { result ≡ pick stays n (suc n) }
{
    if stays { n } else { n + 1 }
}

// Down, no cause, no deadline, not killed, and wanted and aside as given.
pub(crate) fn at_rest(wanted: bool, aside: bool, r: Record) -> Record
    ensures { result ≡ at_rest wanted aside r }
{
    Record {
        phase: Phase::Down,
        cause: Cause::None,
        deadline: None,
        wanted,
        aside,
        killed: false,
        ..r
    }
}

impl Moment {
    fn is_window_over(self) -> bool
        ensures { result ≡ window_over self.settings self.now self.found }
    {
        self.settings.interval <= self.now.saturating_sub(self.found.window_start)
    }

    // As many restarts have been counted in the window as the limit allows.
    fn limit_reached(self) -> bool
        ensures { result ≡ limit_reached self.settings self.now self.found }
    {
        let v = self.settings;
        let over = self.is_window_over();
        let count = window_count(over, self.found.restarts);
        (v.limit != 0) & (v.limit <= count)
    }

    // The record with a fall counted: its window, the count in it and the time before which it is not launched again.
    fn fall_counted(self) -> Record
        ensures { result ≡ fall_counted self.settings self.now self.found }
    {
        let v = self.settings;
        let r = self.found;
        let over = self.is_window_over();
        let count = window_count(over, r.restarts);
        let reached = self.limit_reached();
        Record {
            not_before: either(reached, r.not_before, r.last_launch + v.delay),
            window_start: either(over, self.now, r.window_start),
            restarts: next_count(reached | (v.limit == 0), count),
            ..r
        }
    }

    // A fall, counted in the restart window.
    fn settled_fall(self) -> Record
        ensures { result ≡ settled_as Fell self.settings self.now self.found }
    {
        let v = self.settings;
        let r = self.found;
        let reached = self.limit_reached();
        let counted = self.fall_counted();
        at_rest(!reached & r.wanted & v.restart, reached | r.aside, counted)
    }

    // The settled record.
    pub(crate) fn settled(self) -> Record
        ensures { result ≡ settled self.settings self.now self.found }
    {
        let r = self.found;
        match r.cause {
            Cause::None | Cause::Released => at_rest(r.wanted, r.aside, r),
            // Two cases: must-fail/restarts_after_stop is a wrong program in the first alone.
            Cause::User => at_rest(false, true, r),
            Cause::Failed => at_rest(false, true, r),
            Cause::Fell => self.settled_fall(),
        }
    }
}
