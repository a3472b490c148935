// Types, signals, phases, causes and refusals as numbers, the first four back, and the two numbers of an action: each enum's numbers stand
// here and nowhere else.
ghost use Rattle.std.specs.Prelude.{◌≡◌};
ghost use Rattle.service.specs.Numbers.{kind_number, kind_at, signal_number, signal_at};
ghost use Rattle.service.specs.Numbers.{phase_number, phase_at, cause_number, cause_at};
ghost use Rattle.service.specs.Numbers.{action_service, action_number, refusal_number};

use crate::{Action, Cause, Kind, Phase, Refusal, Signal};

// The number of the last of the signals.
pub const LAST_SIGNAL: u64 = 7;

impl From<Kind> for u64 {
    ghost from_gives = { λ k n. n ≡ kind_number k };

    fn from(k: Kind) -> u64 {
        match k {
            Kind::Process => 0,
            Kind::Scripted => 1,
            Kind::Internal => 2,
        }
    }
}

// A number past the last's is read as the last.
impl From<u64> for Kind {
    ghost from_gives = { λ n k. k ≡ kind_at n };

    fn from(n: u64) -> Kind {
        match n {
            0 => Kind::Process,
            1 => Kind::Scripted,
            _ => Kind::Internal,
        }
    }
}

impl From<Signal> for u64 {
    ghost from_gives = { λ k n. n ≡ signal_number k };

    fn from(g: Signal) -> u64 {
        match g {
            Signal::None => 0,
            Signal::Hup => 1,
            Signal::Int => 2,
            Signal::Term => 3,
            Signal::Quit => 4,
            Signal::Usr1 => 5,
            Signal::Usr2 => 6,
            Signal::Kill => 7,
        }
    }
}

// A number past the last's is read as the last.
impl From<u64> for Signal {
    ghost from_gives = { λ n k. k ≡ signal_at n };

    fn from(n: u64) -> Signal {
        match n {
            0 => Signal::None,
            1 => Signal::Hup,
            2 => Signal::Int,
            3 => Signal::Term,
            4 => Signal::Quit,
            5 => Signal::Usr1,
            6 => Signal::Usr2,
            _ => Signal::Kill,
        }
    }
}

impl From<Phase> for u64 {
    ghost from_gives = { λ k n. n ≡ phase_number k };

    fn from(p: Phase) -> u64 {
        match p {
            Phase::Down => 0,
            Phase::Waiting => 1,
            Phase::Starting => 2,
            Phase::Up => 3,
            Phase::Ending => 4,
        }
    }
}

// A number past the last's is read as the last.
impl From<u64> for Phase {
    ghost from_gives = { λ n k. k ≡ phase_at n };

    fn from(n: u64) -> Phase {
        match n {
            0 => Phase::Down,
            1 => Phase::Waiting,
            2 => Phase::Starting,
            3 => Phase::Up,
            _ => Phase::Ending,
        }
    }
}

impl From<Cause> for u64 {
    ghost from_gives = { λ k n. n ≡ cause_number k };

    fn from(c: Cause) -> u64 {
        match c {
            Cause::None => 0,
            Cause::User => 1,
            Cause::Released => 2,
            Cause::Fell => 3,
            Cause::Failed => 4,
        }
    }
}

// A number past the last's is read as the last.
impl From<u64> for Cause {
    ghost from_gives = { λ n k. k ≡ cause_at n };

    fn from(n: u64) -> Cause {
        match n {
            0 => Cause::None,
            1 => Cause::User,
            2 => Cause::Released,
            3 => Cause::Fell,
            _ => Cause::Failed,
        }
    }
}

// Paper 01's number of a refusal.
impl From<Refusal> for u64 {
    ghost from_gives = { λ k n. n ≡ refusal_number k };

    fn from(k: Refusal) -> u64 {
        match k {
            Refusal::IllFormed => 24,
            Refusal::NoService => 20,
            Refusal::NotLive => 21,
            Refusal::ClockBack => 22,
            Refusal::ClockPast => 23,
            Refusal::NoRoom => 25,
        }
    }
}

impl Action {
    // The two numbers that a run writes for an action.
    pub fn service(self) -> u64
        ensures { result ≡ action_service self }
    {
        match self {
            Action::Quiet => 0,
            Action::Moved(s) | Action::Launch(s) | Action::StopCommand(s) | Action::Signal(s, _) =>
                s as u64,
        }
    }

    // A signal's number stands after those of the three other actions.
    // A method: no From, since an action is two numbers, its service's beside this one.
    pub fn number(self) -> u64
        ensures { result ≡ action_number self }
    {
        match self {
            Action::Quiet | Action::Moved(_) => 0,
            Action::Launch(_) => 1,
            Action::StopCommand(_) => 2,
            Action::Signal(_, g) => 3 + u64::from(g),
        }
    }
}
