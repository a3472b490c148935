// The bytes and lines of a description: classes of bytes, the lines, and where a line's name, sign and value are.
#![tactic(auto)]

ghost use Rattle.std.specs.Prelude.{◌≡◌, ◌+◌, length, get_or, take, drop};
ghost use Rattle.load_text.specs.Numbers.{wrong_number};
ghost use Rattle.load_text.specs.Strings.{same, part_of};
ghost use Rattle.load_text.specs.Bytes.{is_white, is_bad, is_property_byte, is_name_byte, is_digit, is_sign};
ghost use Rattle.load_text.specs.Lines.{fault, line_of, bad_from, line_number, column_number, name_end, white_end, opening};

// The longest name of a service, and so the longest word.
pub const LONGEST_NAME: usize = 32;

// What is wrong with a text, by paper 01's number.
#[derive(Clone, Copy, PartialEq, Eq)]
pub enum Wrong {
    BadByte = 6,
    Malformed = 7,
    OpenQuote = 8,
    LastBackslash = 9,
    UnknownProperty = 10,
    OutsideRule = 11,
    TooManyDependencies = 12,
    NoType = 13,
    NoCommand = 14,
    NoSuchService = 15,
}

impl From<Wrong> for u8 {
    ghost from_gives = { λ w n. n ≡ wrong_number w };

    fn from(w: Wrong) -> u8 {
        w as u8
    }
}

impl Wrong {
    // The fault at an offset.
    pub fn at(self, at: usize) -> Fault
        ensures { result ≡ fault self at }
    {
        Fault { wrong: self, at }
    }
}

// A fault met inside a text, and the offset of the byte that decided it.
#[derive(Clone, Copy)]
pub struct Fault {
    pub wrong: Wrong,
    pub at: usize,
}

// Where a line's property name begins and ends, and where its value begins.
// Three places: a fault is told by its offset, which slices of the line would lose.
#[derive(Clone, Copy)]
pub struct Places {
    pub from: usize,
    pub end: usize,
    pub value: usize,
}

pub fn is_white(b: u8) -> bool
    ensures { result ≡ is_white b }
{
    matches!(b, b' ' | b'\t' | b'\x0b'..=b'\r')
}

fn is_bad(b: u8) -> bool
    ensures { result ≡ is_bad b }
{
    matches!(b, b'\0'..=b'\x08' | b'\x0e'..=b'\x1f' | b'\x7f')
}

fn is_property_byte(b: u8) -> bool
    ensures { result ≡ is_property_byte b }
{
    matches!(b, b'a'..=b'z' | b'-' | b'.')
}

pub fn is_name_byte(b: u8) -> bool
    ensures { result ≡ is_name_byte b }
{
    matches!(b, b'a'..=b'z' | b'A'..=b'Z' | b'0'..=b'9' | b'-' | b'_' | b'.')
}

// A function: its contract is `is_digit`, which the definitions of a decimal number have.
pub fn is_digit(b: u8) -> bool
    ensures { result ≡ is_digit b }
{
    b.is_ascii_digit()
}

fn is_sign(b: u8) -> bool
    ensures { result ≡ is_sign b }
{
    matches!(b, b'=' | b':')
}

// A function: its contract is `same`, which the definitions of names and words have.
pub fn same_bytes(a: &[u8], b: &[u8]) -> bool
    ensures { result ≡ same a.now b.now }
{
    a == b
}

// The bytes between two places, or none where they are not there.
#[tactic(auto, unfolding(crate::specs::Strings::part_of))]
pub fn part(s: &[u8], from: usize, to: usize) -> &[u8]
    ensures { result.now ≡ part_of s.now from to }
{
    s.get(from..to).unwrap_or(&[])
}

// The bytes from a place on, or none past the end.
pub fn tail(s: &[u8], from: usize) -> &[u8]
    ensures { result.now ≡ drop from s.now }
{
    s.get(from..).unwrap_or(&[])
}

// The bytes before a place, or all where it is past the end.
fn head(s: &[u8], to: usize) -> &[u8]
    ensures { result.now ≡ take to s.now }
{
    s.get(..to).unwrap_or(s)
}

// The byte at i, or 0 past the end.
// Two parameters: a slice and a place in it, as `get` of a slice takes them.
pub fn byte_at(s: &[u8], i: usize) -> u8
    ensures { result ≡ get_or s.now i 0 }
{
    s.get(i).copied().unwrap_or(0)
}

// The three ends are a chain each: one function for them would take the class as a closure, and its callers be as long as these.

// Where the line that begins at i ends.
pub fn line_end(s: &[u8], i: usize) -> usize
    ensures { result ≡ i + length (line_of (drop i s.now)) }
{
    i + tail(s, i).iter().take_while(|b| **b != b'\n').count()
}

// Where the white space that begins at i ends.
pub fn white_end(s: &[u8], i: usize) -> usize
    ensures { result ≡ white_end s.now i }
{
    i + tail(s, i).iter().take_while(|b| is_white(**b)).count()
}

// Where the property name that begins at i ends.
fn name_end(s: &[u8], i: usize) -> usize
    ensures { result ≡ name_end s.now i }
{
    i + tail(s, i)
        .iter()
        .take_while(|b| is_property_byte(**b))
        .count()
}

// The first bad byte. Paper 01 asks for a nested walk over lines and bytes, left from inside by a label that carries number and place: "The
// first bad byte of the first bad line decides".
pub fn first_bad(s: &[u8]) -> Result<(), Fault>
    ensures { result ≡ bad_from 0 s.now }
{
    let mut i: usize = 0;
    'lines: loop {
        if s.len() <= i {
            break 'lines Ok(());
        }
        while i < s.len() {
            let b = s[i];
            if is_bad(b) {
                break 'lines Err(Wrong::BadByte.at(i));
            }
            i += 1;
            if b == b'\n' {
                break;
            }
        }
    }
}

// The line of the byte at an offset, from 1; from the text's end on, the line that the text ends in.
pub fn line_number(s: &[u8], at: usize) -> usize
    ensures { result ≡ line_number s.now at }
{
    1 + head(s, at).iter().filter(|b| **b == b'\n').count()
}

// The column of the byte at an offset, from 1; at a line's end the one past its bytes. After each newline the columns begin again.
pub fn column_number(s: &[u8], at: usize) -> usize
    ensures { result ≡ column_number s.now at }
{
    let before = head(s, at);
    1 + before.iter().rev().take_while(|b| **b != b'\n').count()
}

// How a line begins: with its places where it has a name and a sign, with none where it says nothing.
#[tactic(auto, unfolding(crate::specs::Lines::opening))]
pub fn opening_of(line: &[u8]) -> Result<Option<Places>, Fault>
    ensures { result ≡ opening line.now }
{
    let from = white_end(line, 0);
    let end = name_end(line, from);
    let sign = white_end(line, end);
    let value = sign + 1;
    if line.len() <= from || byte_at(line, from) == b'#' {
        return Ok(None);
    }
    if from == end {
        return Err(Wrong::Malformed.at(from));
    }
    if !is_sign(byte_at(line, sign)) {
        return Err(Wrong::Malformed.at(sign));
    }
    Ok(Some(Places { from, end, value }))
}
