// The words of a description: names of properties, the values of those that are no commands, names of services.
#![tactic(auto)]

ghost use Rattle.std.specs.Prelude.{◌≡◌, true, Some, ◌-◌, ◌^◌, ◌≤◌};
ghost use Rattle.load_text.specs.Bytes.{is_digit};
ghost use Rattle.service.specs.Numbers.{kind_number, with_number};
ghost use Rattle.load_word.specs.Words.{found, flag_of, no_of, kind_of, signal_of, name_bytes, is_name};
ghost use Rattle.load_word.specs.Decimals.{Sane, blank, digit_of, read_of, decimal_from, time_of, count_of};
ghost use Rattle.load_word.specs.Properties.{property_of, setting_of};

use load_text::{LONGEST_NAME, is_digit, is_name_byte, same_bytes};
use service::{Kind, LONGEST_TIME, MAX_COUNT, Settings, Signal};

// A property by what its value is: the type; a word that the settings hold; a command; the name of a service that is depended on.
// An enum: property_of has the unknown one among its five cases, and tokens_read and property_read answer for it.
#[derive(Clone, Copy)]
pub enum Property {
    Kind,
    Setting(Setting),
    Command(Command),
    Link(Link),
    Unknown,
}

// The properties whose value is a word that the settings hold, each by paper 01's name.
#[derive(Clone, Copy)]
pub enum Setting {
    Restart,
    SmoothRecovery,
    RestartDelay,
    RestartLimitInterval,
    RestartLimitCount,
    StartTimeout,
    StopTimeout,
    TermSignal,
}

// Those whose value is kept: command and stop-command.
#[derive(Clone, Copy)]
pub enum Command {
    Start,
    Stop,
}

// Those whose value names a service.
#[derive(Clone, Copy, PartialEq, Eq)]
pub enum Link {
    DependsOn,
    DependsMs,
    WaitsFor,
}

// A decimal number as it is read: its digits before and after the point, their value without the point, a point.
// A flag: so the definitions of a decimal number have it (blank, Sane, decimal_from).
#[derive(Clone, Copy)]
pub struct Decimal {
    pub whole: usize,
    pub part: usize,
    pub value: u64,
    pub point: bool,
}

// What stands with a name in a table, by the first place that has it.
fn find<T: Copy>(name: &[u8], table: &[(&[u8], T)]) -> Option<T>
    ensures { result ≡ found name.now table.now }
{
    table.iter().find(|e| same_bytes(name, e.0)).map(|e| e.1)
}

// The property of a name.
pub fn find_property(name: &[u8]) -> Property
    ensures { result ≡ property_of name.now }
{
    find(
        name,
        &[
            (b"type", Property::Kind),
            (b"command", Property::Command(Command::Start)),
            (b"stop-command", Property::Command(Command::Stop)),
            (b"restart", Property::Setting(Setting::Restart)),
            (
                b"smooth-recovery",
                Property::Setting(Setting::SmoothRecovery),
            ),
            (b"restart-delay", Property::Setting(Setting::RestartDelay)),
            (
                b"restart-limit-interval",
                Property::Setting(Setting::RestartLimitInterval),
            ),
            (
                b"restart-limit-count",
                Property::Setting(Setting::RestartLimitCount),
            ),
            (b"start-timeout", Property::Setting(Setting::StartTimeout)),
            (b"stop-timeout", Property::Setting(Setting::StopTimeout)),
            (b"depends-on", Property::Link(Link::DependsOn)),
            (b"depends-ms", Property::Link(Link::DependsMs)),
            (b"waits-for", Property::Link(Link::WaitsFor)),
            (b"term-signal", Property::Setting(Setting::TermSignal)),
        ],
    )
    .unwrap_or(Property::Unknown)
}

// Yes or no.
fn read_flag(word: &[u8]) -> Option<bool>
    ensures { result ≡ flag_of word.now }
{
    find(
        word,
        &[
            (b"yes", true),
            (b"true", true),
            (b"no", false),
            (b"false", false),
        ],
    )
}

// No, and nothing else.
fn read_no(word: &[u8]) -> Option<bool>
    ensures { result ≡ no_of word.now }
{
    find(word, &[(b"no", false), (b"false", false)])
}

// A type.
pub fn read_kind(word: &[u8]) -> Option<Kind>
    ensures { result ≡ kind_of word.now }
{
    find(
        word,
        &[
            (b"process", Kind::Process),
            (b"scripted", Kind::Scripted),
            (b"internal", Kind::Internal),
        ],
    )
}

// A signal.
fn read_signal(word: &[u8]) -> Option<Signal>
    ensures { result ≡ signal_of word.now }
{
    find(
        word,
        &[
            (b"none", Signal::None),
            (b"HUP", Signal::Hup),
            (b"INT", Signal::Int),
            (b"TERM", Signal::Term),
            (b"QUIT", Signal::Quit),
            (b"USR1", Signal::Usr1),
            (b"USR2", Signal::Usr2),
            (b"KILL", Signal::Kill),
        ],
    )
}

impl Decimal {
    const BLANK: Decimal = Decimal {
        whole: 0,
        part: 0,
        value: 0,
        point: false,
    };

    // A byte more: a digit, of which six may stand before the point and four after it, or the point.
    #[tactic(auto, unfolding(crate::specs::Decimals::read_of, crate::specs::Decimals::digit_of))]
    fn with_byte(self, b: u8) -> Option<Decimal>
        requires { Sane (Some self) }
        ensures value { result ≡ read_of self b }
        ensures sane { Sane result }
    {
        if !is_digit(b) {
            let dot = b == b'.' && !self.point && 0 < self.whole;
            return dot.then_some(Decimal {
                point: true,
                ..self
            });
        }
        let value = self.value * 10 + (b - b'0') as u64;
        if self.point {
            let part = self.part + 1;
            return (part <= 4).then_some(Decimal {
                part,
                value,
                ..self
            });
        }
        let whole = self.whole + 1;
        (whole <= 6).then_some(Decimal {
            whole,
            value,
            ..self
        })
    }
}

// The decimal number that a word is.
#[tactic(auto, using(crate::proofs::Decimals::decimal_end, crate::proofs::Decimals::decimal_next))]
fn read_decimal(word: &[u8]) -> Option<Decimal>
    ensures value { result ≡ decimal_from blank word.now }
    ensures sane { Sane result }
{
    let mut k = Decimal::BLANK;
    for &b in word {
        k = k.with_byte(b)?;
    }
    Some(k)
}

// A time in units of 0.1 ms.
#[tactic(auto, unfolding(crate::specs::Decimals::time_of, crate::specs::Decimals::time_end))]
fn read_time(word: &[u8]) -> Option<u64>
    ensures { result ≡ time_of word.now }
{
    let k = read_decimal(word)?;
    let units = k.value * 10u64.pow(4 - k.part as u32);
    let good = 0 < k.whole && (!k.point || 0 < k.part) && units <= LONGEST_TIME;
    good.then_some(units)
}

// A limit count.
#[tactic(auto, unfolding(crate::specs::Decimals::count_of, crate::specs::Decimals::count_end))]
fn read_limit(word: &[u8]) -> Option<u64>
    ensures { result ≡ count_of word.now }
{
    let k = read_decimal(word)?;
    let good = matches!(k.whole, 1..=5) && !k.point && k.value <= MAX_COUNT;
    good.then_some(k.value)
}

// All bytes are those of a name.
fn name_bytes(s: &[u8]) -> bool
    ensures { result ≡ name_bytes s.now }
{
    s.iter().all(|b| is_name_byte(*b))
}

// A name of a service.
#[tactic(auto, unfolding(crate::specs::Words::is_name))]
pub fn is_name(s: &[u8]) -> bool
    ensures { result ≡ is_name s.now }
{
    0 < s.len() && s.len() <= LONGEST_NAME && name_bytes(s)
}

// The settings with a type.
pub fn with_kind(kind: Kind, v: Settings) -> Settings
    ensures { result ≡ with_number 0 (kind_number kind) v }
{
    Settings { kind, ..v }
}

// The settings with a word as the value of one of them; none where the word is outside the rule.
// A match: each setting has its rule and its field, as `setting_of` of the definitions.
#[tactic(auto, unfolding(crate::specs::Properties::setting_of))]
pub fn read_setting(s: Setting, word: &[u8], v: Settings) -> Option<Settings>
    ensures { result ≡ setting_of s word.now v }
{
    let next = match s {
        Setting::Restart => Settings {
            restart: read_flag(word)?,
            ..v
        },
        Setting::SmoothRecovery => {
            read_no(word)?;
            v
        }
        Setting::RestartDelay => Settings {
            delay: read_time(word)?,
            ..v
        },
        Setting::RestartLimitInterval => Settings {
            interval: read_time(word)?,
            ..v
        },
        Setting::RestartLimitCount => Settings {
            limit: read_limit(word)?,
            ..v
        },
        Setting::StartTimeout => Settings {
            start_timeout: read_time(word)?,
            ..v
        },
        Setting::StopTimeout => Settings {
            stop_timeout: read_time(word)?,
            ..v
        },
        Setting::TermSignal => Settings {
            signal: read_signal(word)?,
            ..v
        },
    };
    Some(next)
}
