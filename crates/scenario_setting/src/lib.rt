// The lines of a scenario that set a number of the table or the state.
#![tactic(auto)]

ghost use Rattle.std.specs.Prelude.{◌≡◌, ◌<◌};
ghost use Rattle.scenario_setting.specs.Setting.{number_set, record_set, setting_lines, setting_place, state_after, table_after};

use plain_encoding::{EACH, FRONT, Numbers};
use scenario_lines::{Command, Verb};
use service::MAX_SERVICES;

// How many lines set a number of a record, and how many one of a service's settings.
const RECORD_LINES: usize = 12;

const SETTING_LINES: usize = 8;

// The places of a deadline's two numbers among those of a record: whether there is one, and its time.
const TIMED: usize = 5;

const TIME: usize = 6;

// How many of a table's lines set a number that stands before the signal, which no line sets; and how far the place of a
// number is past that of its line, before the signal and after it.
const BEFORE_SIGNAL: usize = 5;

const PAST_BEFORE: usize = 2;

const PAST_AFTER: usize = 3;

// Sets a number of a service by its place among them.
fn set_number(numbers: &mut Numbers, s: u64, place: usize, n: u64)
    ensures { numbers.new ≡ number_set numbers.old s place n }
{
    if s < MAX_SERVICES as u64 && place < EACH {
        numbers[FRONT + EACH * s as usize + place] = n;
    }
}

// Sets a number of a record, and what goes with one of a deadline's two: with a time that there is a deadline, and with none
// the time 0.
fn set_record(state: &mut Numbers, s: u64, place: usize, n: u64)
    ensures { state.new ≡ record_set state.old s place n }
{
    match place {
        TIME => set_number(state, s, TIMED, 1),
        TIMED => set_number(state, s, TIME, 0),
        _ => {}
    }
    set_number(state, s, place, n);
}

// The place of a number of a table among a service's, by that of its line among the lines that set one.
fn setting_place(line: usize) -> usize
    requires { line < setting_lines }
    ensures { result ≡ setting_place line }
{
    if line < BEFORE_SIGNAL {
        line + PAST_BEFORE
    } else {
        line + PAST_AFTER
    }
}

// Sets what a line sets; another line sets nothing. The lines that set a record stand in the order of its numbers.
pub fn set(table: &mut Numbers, state: &mut Numbers, command: Command)
    ensures table_after { table.new ≡ table_after table.old command.verb command.first command.last }
    ensures state_after { state.new ≡ state_after state.old command.verb command.first command.last }
{
    let s = command.first;
    let n = command.last;
    match command.verb {
        Verb::SetClock => state[0] = n,
        Verb::SetRecord(place) if place < RECORD_LINES => set_record(state, s, place, n),
        Verb::SetCount => table[0] = n,
        Verb::SetTable(line) if line < SETTING_LINES => {
            set_number(table, s, setting_place(line), n);
        }
        _ => {}
    }
}
