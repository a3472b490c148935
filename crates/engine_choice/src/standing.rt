// Where the services stand, as sets, and whether a rule fits one service, decided from those sets.
ghost use Rattle.std.specs.Prelude.{◌≡◌};
ghost use Rattle.rules.specs.Rules.{nothing_to_end, due};
ghost use Rattle.engine_choice.specs.Standing.{nowhere, noted_in};
ghost use Rattle.engine_choice.specs.Fitting.{lose_by, abandon_by, settle_by, wake_by, release_by, begin_by, end_by, expire_by, which_by};

use crate::PerRule;
use base::{has_bit, kept_if, overlaps, single_of};
use engine_record_tests::{is_barred, is_closing, is_running, is_serving};
use service::{Cause, Form, Phase, Record, Settings};

#[derive(Clone, Copy, Default)]
pub struct Standing {
    // services that are not up with no cause
    pub lost: u64,
    // those of them that have the cause user
    pub user: u64,
    // services that are down and aside
    pub barred: u64,
    // services that are neither up with no cause nor down and aside
    pub unready: u64,
    // services with a hard dependent that is starting, up or ending
    pub blocked: u64,
    // services with a dependent that is not down: the rules' needed, but for what is wanted itself
    pub needed: u64,
    // services with a dependent that is waiting
    pub called: u64,
}

// Whether ending the service takes no action.
fn nothing_to_end(f: Form, command: bool, live: bool) -> bool
    ensures { result ≡ nothing_to_end f command live }
{
    match f {
        Form::Bare => true,
        Form::Passing => !command,
        Form::Direct | Form::Delayed => !live,
    }
}

// The clock is at or past the deadline.
#[tactic(auto, unfolding(rules::specs::Rules::due))]
fn is_due(now: u64, d: Option<u64>) -> bool
    ensures { result ≡ due now d }
{
    d.is_some_and(|e| e <= now)
}

// Rule 8.
fn fits_expire(now: u64, r: Record) -> bool
    ensures { result ≡ expire_by now r }
{
    let p = r.phase;
    is_due(now, r.deadline) & ((p == Phase::Starting) | ((p == Phase::Ending) & !r.killed))
}

impl Standing {
    pub fn none() -> Standing
        ensures { result ≡ nowhere }
    {
        Standing::default()
    }

    // The sets with service i as well.
    pub fn noted(self, v: Settings, r: Record, i: usize) -> Standing
        ensures { result ≡ noted_in self v r i }
    {
        let all = v.all_links();
        let p = r.phase;
        let serving = is_serving(r);
        let barred = is_barred(r);
        Standing {
            lost: self.lost | single_of(i, !serving),
            user: self.user | single_of(i, !serving & (r.cause == Cause::User)),
            barred: self.barred | single_of(i, barred),
            unready: self.unready | single_of(i, !(serving | barred)),
            blocked: self.blocked | kept_if(p.is_active(), v.hard),
            needed: self.needed | kept_if(p != Phase::Down, all),
            called: self.called | kept_if(p == Phase::Waiting, all),
        }
    }

    // Rule 1.
    fn fits_lose(self, v: Settings, r: Record) -> bool
        ensures { result ≡ lose_by v r self }
    {
        is_running(r) & overlaps(v.hard, self.lost)
    }

    // Rule 2.
    fn fits_abandon(self, v: Settings, r: Record) -> bool
        ensures { result ≡ abandon_by v r self }
    {
        (r.phase == Phase::Waiting) & overlaps(v.strong_links(), self.barred)
    }

    // Rule 3.
    fn fits_settle(self, v: Settings, r: Record, s: usize) -> bool
        ensures { result ≡ settle_by v r self s }
    {
        is_closing(r) & !has_bit(self.blocked, s) & nothing_to_end(v.form(), v.has_stop, r.live)
    }

    // Rule 4.
    fn fits_wake(self, r: Record, s: usize) -> bool
        ensures { result ≡ wake_by r self s }
    {
        (r.phase == Phase::Down) & !r.aside & (r.wanted | has_bit(self.called, s))
    }

    // Rule 5.
    fn fits_release(self, r: Record, s: usize) -> bool
        ensures { result ≡ release_by r self s }
    {
        matches!(r.phase, Phase::Waiting | Phase::Starting | Phase::Up)
            & (r.cause == Cause::None)
            & !(r.wanted | has_bit(self.needed, s))
    }

    // Rule 6.
    fn fits_begin(self, now: u64, v: Settings, r: Record) -> bool
        ensures { result ≡ begin_by now v r self }
    {
        (r.phase == Phase::Waiting)
            & (r.not_before <= now)
            & !overlaps(v.strong_links(), self.lost)
            & !overlaps(v.soft, self.unready)
    }

    // Rule 7.
    fn fits_end(self, r: Record, s: usize) -> bool
        ensures { result ≡ end_by r self s }
    {
        is_closing(r) & !has_bit(self.blocked, s)
    }

    // Which of the rules fit the service s.
    pub(crate) fn which_fit(self, now: u64, v: Settings, r: Record, s: usize) -> PerRule<bool>
        ensures { result ≡ which_by now v r self s }
    {
        PerRule {
            lose: self.fits_lose(v, r),
            abandon: self.fits_abandon(v, r),
            settle: self.fits_settle(v, r, s),
            wake: self.fits_wake(r, s),
            release: self.fits_release(r, s),
            begin: self.fits_begin(now, v, r),
            end: self.fits_end(r, s),
            expire: fits_expire(now, r),
        }
    }
}
