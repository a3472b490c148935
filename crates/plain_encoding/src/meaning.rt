// Whether numbers stand for a table or a state: they do where they are what is written of the table or the state that they say.
ghost use Rattle.std.specs.Prelude.{◌≡◌, ◌+◌, ◌≤◌, ◌&&◌, eqb, get_or};
ghost use Rattle.plain_encoding.specs.Numbers.{all_numbers, per_place};
ghost use Rattle.plain_encoding.specs.Encoding.{all_stand};
ghost use Rattle.plain_encoding.specs.Meaning.{stand_as, is_state, is_table};

use crate::encoded::Encoded;
use crate::{EACH, FRONT, Numbers};
use service::{MAX_SERVICES, Record, Settings};

// The numbers of a place, from there on, are those of the value that they say.
fn is_meant<T: Encoded>(numbers: &Numbers, at: usize) -> bool
    requires { at + per_place ≤ all_numbers }
    ensures { result ≡ stand_as numbers.now at (T.encoded (T.decoded numbers.now at)) }
{
    let line = T::decode(numbers, at).encode();
    let mut same = true;
    // A loop: `==` of slices takes a call for each place, and all places are looked at in each call of a host.
    for k in 0..EACH {
        same = same & (numbers[at + k] == line[k]);
    }
    same
}

// Nothing stands in front but the first number, and each place has the numbers of what it says.
fn stands_for<T: Encoded>(numbers: &Numbers) -> bool
    ensures { result ≡ (eqb (get_or numbers.now 1 0) 0 && all_stand T.encoded T.decoded numbers.now) }
{
    numbers[1] == 0 && (0..MAX_SERVICES).all(|s| is_meant::<T>(numbers, FRONT + EACH * s))
}

// The numbers stand for a state.
pub fn is_state(numbers: &Numbers) -> bool
    ensures { result ≡ is_state numbers.now }
{
    stands_for::<Record>(numbers)
}

// The numbers stand for a table.
// Two functions: docs/HOST.md names them both.
pub fn is_table(numbers: &Numbers) -> bool
    ensures { result ≡ is_table numbers.now }
{
    stands_for::<Settings>(numbers)
}
