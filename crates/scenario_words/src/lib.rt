// The pieces of a text that a byte separates, and the numbers that words are.
#![tactic(auto)]

ghost use Rattle.std.specs.Prelude.{◌≡◌};
ghost use Rattle.scenario_words.specs.Pieces.{piece_of, piece_count, place_of};
ghost use Rattle.scenario_words.specs.Numbers.{with_digit, number_of, number_to};

// Piece k of a text, counted from 0. Exactly one byte separates two pieces, so a piece may have no bytes; one that is
// not there has none.
pub fn piece(text: &[u8], parting: u8, k: usize) -> &[u8]
    ensures { result.now ≡ piece_of text.now parting k }
{
    text.split(|b| *b == parting).nth(k).unwrap_or(&[])
}

// How many pieces a text has: one more than its separators.
pub fn pieces(text: &[u8], parting: u8) -> usize
    ensures { result ≡ piece_count text.now parting }
{
    let mut count = 1;
    // A loop: a line is counted for each form, and `split` takes several times as long for each byte.
    for b in text {
        count += usize::from(*b == parting);
    }
    count
}

// The place of a word among the choices, counted from 0.
pub fn place(choices: &[u8], parting: u8, wanted: &[u8]) -> Option<usize>
    ensures { result ≡ place_of choices.now parting wanted.now }
{
    choices
        .split(|b| *b == parting)
        .position(|choice| wanted == choice)
}

// A number with one more decimal digit, where it still fits 64 bits.
fn with_digit(value: u64, digit: u8) -> Option<u64>
    ensures { result ≡ with_digit value digit }
{
    match digit {
        b'0'..=b'9' => value.checked_mul(10)?.checked_add(u64::from(digit - b'0')),
        _ => None,
    }
}

// The number that a word of 1 to 20 digits is.
pub fn number(word: &[u8]) -> Option<u64>
    ensures { result ≡ number_of word.now }
{
    if word.is_empty() || 20 < word.len() {
        return None;
    }
    let mut value = 0;
    for b in word {
        value = with_digit(value, *b)?;
    }
    Some(value)
}

// A number that is at most `most`.
pub fn number_to(word: &[u8], most: u64) -> Option<u64>
    ensures { result ≡ number_to word.now most }
{
    number(word).filter(|value| *value <= most)
}
