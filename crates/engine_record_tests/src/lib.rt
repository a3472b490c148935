// Tests of one service's record, as the rules name them.
#![tactic(auto)]

ghost use Rattle.std.specs.Prelude.{◌≡◌};
ghost use Rattle.rules.specs.Dependencies.{serving, closing, barred};
ghost use Rattle.rules.specs.Rules.{running};

use service::{Cause, Phase, Record};

// Up with no cause.
pub fn is_serving(r: Record) -> bool
    ensures { result ≡ serving r }
{
    let up = r.phase == Phase::Up;
    let free = r.cause == Cause::None;
    up & free
}

// Up with a cause.
pub fn is_closing(r: Record) -> bool
    ensures { result ≡ closing r }
{
    (r.phase == Phase::Up) & (r.cause != Cause::None)
}

// Down and aside.
pub fn is_barred(r: Record) -> bool
    ensures { result ≡ barred r }
{
    (r.phase == Phase::Down) & r.aside
}

// Starting or up, with no cause.
pub fn is_running(r: Record) -> bool
    ensures { result ≡ running r }
{
    matches!(r.phase, Phase::Starting | Phase::Up) & (r.cause == Cause::None)
}
