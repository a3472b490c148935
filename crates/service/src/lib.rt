// What a service is: its settings and the table of all services, its record and the state, the actions and the answers; each enum's numbers.
#![tactic(auto)]

mod numbers;

ghost use Rattle.std.specs.Prelude.{◌≡◌};
ghost use Rattle.service.specs.Settings.{default_settings, form_of, is_passing, starts_first, lives_up, no_services, strong_of, links_of};
ghost use Rattle.service.specs.Records.{active, fresh_record, fresh_state};

pub use numbers::LAST_SIGNAL;

// The most services that a set may have.
pub const MAX_SERVICES: usize = 32;

// The most actions that a run may hand out before all is quiet: four for each service.
pub const MAX_ACTIONS: usize = 4 * MAX_SERVICES;

// The longest time that a setting may have, 86400 seconds in units of 0.1 ms.
pub const LONGEST_TIME: u64 = 864000000;

// The most that a limit count or a restart count may be.
pub const MAX_COUNT: u64 = 65535;

// The last time that the clock may show, 2^48.
pub const LAST_CLOCK: u64 = 281474976710656;

// The last time that may be pending.
pub const LAST_TIME: u64 = LAST_CLOCK + LONGEST_TIME;

// Paper 01's types.
#[derive(Clone, Copy, PartialEq, Eq)]
pub enum Kind {
    Process,
    Scripted,
    Internal,
}

// How a service is launched, and whether it has a live process while it is up. The order is the one in which list 24 and the choice of a
// rule take the fewest instructions.
#[derive(Clone, Copy, PartialEq, Eq)]
pub enum Form {
    // launched into starting, not live while up
    Passing,
    // launched straight up, live while up
    Direct,
    // no launch: up at once, never live
    Bare,
    // launched into starting, live while up
    Delayed,
}

// What term-signal names, in paper 01's order; none sends nothing.
// No Option for a case: paper 01's list of signals has none in it, with a number as the others.
#[derive(Clone, Copy, PartialEq, Eq)]
pub enum Signal {
    None,
    Hup,
    Int,
    Term,
    Quit,
    Usr1,
    Usr2,
    Kill,
}

// A service's settings, each with paper 01's property. Times are in units of 0.1 ms; a dependency set has bit d for service d.
#[derive(Clone, Copy)]
pub struct Settings {
    // type
    pub kind: Kind,
    // restart
    pub restart: bool,
    // whether there is a stop-command
    pub has_stop: bool,
    // term-signal
    pub signal: Signal,
    // restart-delay
    pub delay: u64,
    // restart-limit-interval
    pub interval: u64,
    // restart-limit-count
    pub limit: u64,
    // start-timeout
    pub start_timeout: u64,
    // stop-timeout
    pub stop_timeout: u64,
    // depends-on
    pub hard: u64,
    // depends-ms
    pub milestone: u64,
    // waits-for
    pub soft: u64,
}

// A count beside an array: memory is fixed, since the core allocates nothing (docs/HOST.md, "Reentrancy").
#[derive(Clone, Copy)]
pub struct Table {
    pub count: usize,
    pub services: [Settings; MAX_SERVICES],
}

#[derive(Clone, Copy, PartialEq, Eq)]
pub enum Phase {
    Down,
    Waiting,
    Starting,
    Up,
    Ending,
}

// Why a service is to end.
// No Option for a case: paper 01's list of causes has none in it, with a number as the others.
#[derive(Clone, Copy, PartialEq, Eq)]
pub enum Cause {
    None,
    User,
    Released,
    Fell,
    Failed,
}

// One service's place in the state. The fields stand by size, the deadline last: so a record takes 56 bytes, and the loops over records
// load none that spans a store just made.
#[derive(Clone, Copy)]
pub struct Record {
    pub phase: Phase,
    pub cause: Cause,
    pub wanted: bool,
    pub aside: bool,
    pub live: bool,
    pub killed: bool,
    pub not_before: u64,
    pub last_launch: u64,
    pub window_start: u64,
    pub restarts: u64,
    // None is no deadline, and not the time 0.
    pub deadline: Option<u64>,
}

#[derive(Clone, Copy)]
pub struct State {
    pub clock: u64,
    pub records: [Record; MAX_SERVICES],
}

// What the host is handed. Moved is a change of the state alone: the host has nothing to do.
#[derive(Clone, Copy, PartialEq, Eq)]
pub enum Action {
    Quiet,
    Moved(usize),
    Launch(usize),
    StopCommand(usize),
    Signal(usize, Signal),
}

// Why a call of the engine is refused: 24, 20, 21, 22, 23 and 25 of paper 01.
#[derive(Clone, Copy, PartialEq, Eq)]
pub enum Refusal {
    IllFormed,
    NoService,
    NotLive,
    ClockBack,
    ClockPast,
    NoRoom,
}

// What a call that may change the state gives back: its answer, and the state.
// A struct: a refused call gives back the state that it got (changed_outcome and its like), which a Result of both would lose.
#[derive(Clone, Copy)]
pub struct Answered<A> {
    pub answer: Result<A, Refusal>,
    pub state: State,
}

impl<A> Answered<A> {
    pub fn refused(k: Refusal, state: State) -> Answered<A>
        ensures { result ≡ record { answer = Err k; state = state } }
    {
        Answered {
            answer: Err(k),
            state,
        }
    }
}

impl Settings {
    pub const RESTART_DELAY: u64 = 2000;

    pub const RESTART_LIMIT_INTERVAL: u64 = 100000;

    pub const RESTART_LIMIT_COUNT: u64 = 3;

    pub const START_TIMEOUT: u64 = 600000;

    pub const STOP_TIMEOUT: u64 = 100000;

    // The form that the type gives the service. No type gives the delayed one yet; the rules have it all the same.
    pub fn form(self) -> Form
        ensures { result ≡ form_of self }
    {
        match self.kind {
            Kind::Process => Form::Direct,
            Kind::Scripted => Form::Passing,
            Kind::Internal => Form::Bare,
        }
    }

    // The services that it depends on by depends-on or depends-ms.
    pub fn strong_links(self) -> u64
        ensures { result ≡ strong_of self }
    {
        self.hard | self.milestone
    }

    // The services that it depends on by any kind.
    pub fn all_links(self) -> u64
        ensures { result ≡ links_of self }
    {
        self.hard | self.milestone | self.soft
    }
}

// An internal service with the default settings, no dependencies and no commands.
impl Default for Settings {
    ghost is_default = { λ v. v ≡ default_settings };

    fn default() -> Settings {
        Settings {
            kind: Kind::Internal,
            restart: false,
            has_stop: false,
            signal: Signal::Term,
            delay: Settings::RESTART_DELAY,
            interval: Settings::RESTART_LIMIT_INTERVAL,
            limit: Settings::RESTART_LIMIT_COUNT,
            start_timeout: Settings::START_TIMEOUT,
            stop_timeout: Settings::STOP_TIMEOUT,
            hard: 0,
            milestone: 0,
            soft: 0,
        }
    }
}

impl Form {
    // Launched into starting, with no process once it is up.
    pub fn is_passing(self) -> bool
        ensures { result ≡ is_passing self }
    {
        self == Form::Passing
    }

    // Its launch leads to starting.
    pub fn starts_first(self) -> bool
        ensures { result ≡ starts_first self }
    {
        matches!(self, Form::Passing | Form::Delayed)
    }

    // It has a live process while it is up.
    pub fn lives_up(self) -> bool
        ensures { result ≡ lives_up self }
    {
        matches!(self, Form::Direct | Form::Delayed)
    }
}

impl Phase {
    // Starting, up or ending.
    pub fn is_active(self) -> bool
        ensures { result ≡ active self }
    {
        matches!(self, Phase::Starting | Phase::Up | Phase::Ending)
    }
}

impl Table {
    // The table of no services.
    pub fn empty() -> Table
        ensures { result ≡ no_services }
    {
        let v = Settings::default();
        Table {
            count: 0,
            services: [v; MAX_SERVICES],
        }
    }
}

impl Record {
    pub fn fresh() -> Record
        ensures { result ≡ fresh_record }
    {
        Record {
            phase: Phase::Down,
            wanted: false,
            aside: false,
            live: false,
            cause: Cause::None,
            deadline: None,
            killed: false,
            not_before: 0,
            last_launch: 0,
            window_start: 0,
            restarts: 0,
        }
    }
}

impl State {
    // Two functions: this and Table::empty fill types that differ, and paper 01 asks for the fresh ones as associated functions.
    pub fn fresh() -> State
        ensures { result ≡ fresh_state }
    {
        let r = Record::fresh();
        State {
            clock: 0,
            records: [r; MAX_SERVICES],
        }
    }
}
