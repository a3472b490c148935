// One service at a time of the clock, with its settings and its record in range: under that no sum of settling or of a deadline passes 64 bits.
ghost use Rattle.std.specs.Prelude.{◌≡◌, ◌≤◌, IfSome, is_some};
ghost use Rattle.service.specs.Limits.{last_clock, longest_time, max_count};
ghost use Rattle.engine_records.specs.Sound.{sound};

use engine_wellformed::{settings_in_range, times_in_range};
use service::{LAST_CLOCK, Record, Settings};

#[derive(Clone, Copy)]
pub(crate) struct Moment {
    pub settings: Settings,
    pub now: u64,
    pub found: Record,
    ghost clock: { now ≤ last_clock },
    ghost delay: { settings.delay ≤ longest_time },
    ghost begin: { settings.start_timeout ≤ longest_time },
    ghost finish: { settings.stop_timeout ≤ longest_time },
    ghost launch: { found.last_launch ≤ now },
    ghost count: { found.restarts ≤ max_count },
}

// The clock, the settings and the times of the record are in range.
fn is_sound(v: Settings, now: u64, r: Record) -> bool
    ensures { result ≡ sound v now r }
{
    (now <= LAST_CLOCK) & settings_in_range(v) & times_in_range(now, r)
}

impl Moment {
    // None where the clock, a setting or a time of the record is out of range.
    pub(crate) fn at(settings: Settings, now: u64, found: Record) -> Option<Moment>
        ensures kept { IfSome result (λ m. (m.settings ≡ settings) × (m.now ≡ now) × (m.found ≡ found)) }
        ensures when { is_some result ≡ sound settings now found }
    {
        if is_sound(settings, now, found) {
            return Some(Moment {
                settings,
                now,
                found,
            });
        }
        None
    }
}
