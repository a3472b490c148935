// A table and a state as plain numbers, and back: for a program that keeps them, shows them or sets them number by number.
// The first number is the count of services or the clock, the second 0; then come sixteen for each place: twelve in paper 01's order, and 0.
#![tactic(auto)]

mod encoded;
mod meaning;

ghost use Rattle.std.specs.Prelude.{◌≡◌};
ghost use Rattle.plain_encoding.specs.Numbers.{state_numbers, state_of, table_numbers, table_of};

use encoded::{read_places, write_places};
pub use meaning::{is_state, is_table};
use service::{MAX_SERVICES, State, Table};

// How many numbers stand before those of the places.
pub const FRONT: usize = 2;

// How many numbers each place has, for a record or for the settings of a service.
pub const EACH: usize = 16;

// How many numbers a state takes, and a table.
pub const ALL: usize = FRONT + EACH * MAX_SERVICES;

pub type Numbers = [u64; ALL];

// Writes the state to the numbers.
pub fn write_state(numbers: &mut Numbers, x: State)
    ensures { numbers.new ≡ state_numbers numbers.old x }
{
    numbers[0] = x.clock;
    numbers[1] = 0;
    write_places(numbers, &x.records);
}

// The state that the numbers say.
pub fn read_state(numbers: &Numbers) -> State
    ensures { result ≡ state_of numbers.now }
{
    State {
        clock: numbers[0],
        records: read_places(numbers),
    }
}

// Writes the table to the numbers.
// Two functions: the number in front is the clock of a state and the count of a table, and docs/HOST.md names both.
pub fn write_table(numbers: &mut Numbers, t: Table)
    ensures { numbers.new ≡ table_numbers numbers.old t }
{
    numbers[0] = t.count as u64;
    numbers[1] = 0;
    write_places(numbers, &t.services);
}

// The table that the numbers say.
// Two functions: as for what writes them.
pub fn read_table(numbers: &Numbers) -> Table
    ensures { result ≡ table_of numbers.now }
{
    Table {
        count: numbers[0] as usize,
        services: read_places(numbers),
    }
}
