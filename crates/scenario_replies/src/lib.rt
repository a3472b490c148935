// The answers of the scenario format: their texts, and which text with which numbers an answer is.
#![tactic(auto)]

ghost use Rattle.std.specs.Prelude.{◌≡◌};
ghost use Rattle.scenario_replies.specs.Texts.{texts, lined, place, places};
ghost use Rattle.scenario_replies.specs.Replies.{reply_of, ok_reply, bad_reply, refused_reply, event_reply, action_text, action_signal, next_reply, query_reply, load_reply};

use plain::{Handed, LoadRefused};

// The texts of the answers, one on a line, and the lists of names.
//
// In an answer # stands for a number, M for the members of a set, ~ for a number that is not shown, and another capital for the
// name at that place of a list.
// A constant: `texts` promises them as one text, as docs/SCENARIO.md has them.
pub const TEXTS: [u8; 703] = *b"ok
ok #
refused #
refused # service # line # column #
bad line #
quiet
moved #
launch #
stop-command #
signal # G
run #
at #
none
clock #
P wanted=# aside=# live=# cause=C deadline=none~~ killed=# not-before=# last-launch=# window-start=# restarts=#
P wanted=# aside=# live=# cause=C deadline=~# killed=# not-before=# last-launch=# window-start=# restarts=#
type=K restart=Y restart-delay=# restart-limit-interval=# restart-limit-count=# start-timeout=# stop-timeout=# term-signal=G depends-on=M depends-ms=M waits-for=M
 command=# stop-command=#
tokens -
tokens 
# 
 K
down waiting starting up ending
none user released fell failed
process scripted internal
none HUP INT TERM QUIT USR1 USR2 KILL
no yes";

// The texts by name, in their order: the answers, and then the lists of names, which are separated by spaces.
#[derive(Clone, Copy, PartialEq, Eq)]
pub enum Text {
    Accepted,
    Loaded,
    Refused,
    LoadRefused,
    BadLine,
    Quiet,
    Moved,
    Launch,
    StopCommand,
    Signal,
    RunCount,
    Earliest,
    NoEarliest,
    ClockLine,
    Record,
    RecordTimed,
    Settings,
    Commands,
    NoTokens,
    Tokens,
    ServiceHead,
    ServiceTail,
    Phases,
    Causes,
    Kinds,
    Signals,
    Restarts,
}

impl Text {
    // The place of a text among the texts.
    // A method: its contract ties each name to its text, which a cast alone does not.
    pub fn place(self) -> usize
        ensures { result ≡ place self }
    {
        self as usize
    }
}

// The texts of the answers, each with its newline but the last.
#[tactic(auto, unfolding(crate::specs::Texts::texts, crate::specs::Texts::lined))]
pub fn texts() -> [u8; 703]
    ensures { result ≡ lined texts }
{
    TEXTS
}

// The places of the texts, in their order. That the names stand for these texts is what it promises.
#[tactic(auto, unfolding(crate::specs::Texts::places))]
pub fn places() -> [usize; 27]
    ensures { result ≡ places }
{
    [
        Text::Accepted as usize,
        Text::Loaded as usize,
        Text::Refused as usize,
        Text::LoadRefused as usize,
        Text::BadLine as usize,
        Text::Quiet as usize,
        Text::Moved as usize,
        Text::Launch as usize,
        Text::StopCommand as usize,
        Text::Signal as usize,
        Text::RunCount as usize,
        Text::Earliest as usize,
        Text::NoEarliest as usize,
        Text::ClockLine as usize,
        Text::Record as usize,
        Text::RecordTimed as usize,
        Text::Settings as usize,
        Text::Commands as usize,
        Text::NoTokens as usize,
        Text::Tokens as usize,
        Text::ServiceHead as usize,
        Text::ServiceTail as usize,
        Text::Phases as usize,
        Text::Causes as usize,
        Text::Kinds as usize,
        Text::Signals as usize,
        Text::Restarts as usize,
    ]
}

// An answer: its text, and the numbers in that.
#[derive(Clone, Copy)]
pub struct Reply {
    pub text: Text,
    pub numbers: [u64; 4],
}

fn reply_of(text: Text, first: u64, second: u64) -> Reply
    ensures { result ≡ reply_of text first second }
{
    Reply {
        text,
        numbers: [first, second, 0, 0],
    }
}

pub fn ok_reply() -> Reply
    ensures { result ≡ ok_reply }
{
    reply_of(Text::Accepted, 0, 0)
}

// The line of this number is bad.
pub fn bad_reply(number: u64) -> Reply
    ensures { result ≡ bad_reply number }
{
    reply_of(Text::BadLine, number, 0)
}

// A number: `plain` gives a refusal as its number in paper 01, and it is told as that.
pub fn refused_reply(refusal: u64) -> Reply
    ensures { result ≡ refused_reply refusal }
{
    reply_of(Text::Refused, refusal, 0)
}

// An event that was accepted, or refused for this number.
pub fn event_reply(answer: Result<(), u64>) -> Reply
    ensures { result ≡ event_reply answer }
{
    match answer {
        Ok(()) => ok_reply(),
        Err(refusal) => refused_reply(refusal),
    }
}

// The text of an action by its number: three kinds, and then the signals.
// A number: `plain` hands an action out as one, and a run writes it into an array of them.
pub fn action_text(action: u64) -> Text
    ensures { result ≡ action_text action }
{
    match action {
        0 => Text::Moved,
        1 => Text::Launch,
        2 => Text::StopCommand,
        _ => Text::Signal,
    }
}

// The place of its signal, where it has one.
pub fn action_signal(action: u64) -> u64
    ensures { result ≡ action_signal action }
{
    action.saturating_sub(3)
}

// A match: quiet, an action and a refusal have different numbers, and closures for them are no plainer.
pub fn next_reply(next: Result<Option<Handed>, u64>) -> Reply
    ensures { result ≡ next_reply next }
{
    match next {
        Ok(Some(Handed { service, action })) => {
            reply_of(action_text(action), service, action_signal(action))
        }
        Ok(None) => reply_of(Text::Quiet, 0, 0),
        Err(refusal) => refused_reply(refusal),
    }
}

pub fn query_reply(asked: Result<Option<u64>, u64>) -> Reply
    ensures { result ≡ query_reply asked }
{
    match asked {
        Ok(Some(time)) => reply_of(Text::Earliest, time, 0),
        Ok(None) => reply_of(Text::NoEarliest, 0, 0),
        Err(refusal) => refused_reply(refusal),
    }
}

// An accepted load has its count of services.
pub fn load_reply(load: Result<u64, LoadRefused>) -> Reply
    ensures { result ≡ load_reply load }
{
    match load {
        Ok(count) => reply_of(Text::Loaded, count, 0),
        Err(refused) => Reply {
            text: Text::LoadRefused,
            numbers: [
                refused.number,
                refused.service,
                refused.line,
                refused.column,
            ],
        },
    }
}
