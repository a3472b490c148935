// The loaded services, their settings, the tokens and the state, as lines.
use crate::filling::{put_line, put_text};
use load_lent::Lent;
use plain::Counts;
use plain_encoding::{EACH, FRONT, Numbers};
use scenario_replies::Text;
use service::MAX_SERVICES;
use std::io;
use std::io::Write;

// The place among a record's numbers of whether there is a deadline.
const TIMED: usize = 5;

// The digits of a token's bytes. Not by `{:02x}`: most of what is shown may be tokens, and it takes several times as long.
// An array: a digit stands at its value.
const DIGITS: [u8; 16] = *b"0123456789abcdef";

// The numbers of the first `count` places.
pub(crate) fn first_places(numbers: &Numbers, count: u64) -> &[u64] {
    let count = (count as usize).min(MAX_SERVICES);
    &numbers[FRONT..FRONT + EACH * count]
}

// The loaded services, each with its name, of those that were lent, and its type.
// Two parameters: where a line goes and what it says are lent for one call, and a struct of both is no plainer.
pub(crate) fn put_services(out: &mut impl Write, services: &[u64], lent: Lent) -> io::Result<()> {
    for (s, settings) in services.chunks(EACH).enumerate() {
        put_text(out, Text::ServiceHead, &[s as u64])?;
        out.write_all(lent.name(s))?;
        put_line(out, Text::ServiceTail, settings)?;
    }
    Ok(())
}

fn put_tokens(out: &mut impl Write, tokens: &[u8]) -> io::Result<()> {
    if tokens.is_empty() {
        return put_line(out, Text::NoTokens, &[]);
    }
    put_text(out, Text::Tokens, &[])?;
    for byte in tokens {
        let (high, low) = (usize::from(byte / 16), usize::from(byte % 16));
        out.write_all(&[DIGITS[high], DIGITS[low]])?;
    }
    out.write_all(b"\n")
}

// The bytes of the first `count` tokens, each of which ends in a zero byte.
fn first_tokens(tokens: &[u8], count: u64) -> &[u8] {
    let mut left = count;
    for (i, &byte) in tokens.iter().enumerate() {
        if left == 0 {
            return &tokens[..i];
        }
        if byte == 0 {
            left -= 1;
        }
    }
    tokens
}

// Services with their settings and with how many tokens the commands of each have; and the tokens.
pub(crate) fn put_table(
    out: &mut impl Write,
    services: &[u64],
    counts: &Counts,
    tokens: &[u8],
) -> io::Result<()> {
    for (s, (settings, counts)) in services.chunks(EACH).zip(counts.chunks(2)).enumerate() {
        put_text(out, Text::ServiceHead, &[s as u64])?;
        put_text(out, Text::Settings, settings)?;
        put_line(out, Text::Commands, counts)?;
    }
    let all = counts.iter().fold(0u64, |sum, n| sum.saturating_add(*n));
    put_tokens(out, first_tokens(tokens, all))
}

// The clock, and records: with a deadline's time, or without one.
pub(crate) fn put_state(out: &mut impl Write, clock: u64, records: &[u64]) -> io::Result<()> {
    put_line(out, Text::ClockLine, &[clock])?;
    for (s, record) in records.chunks(EACH).enumerate() {
        let text = match record.get(TIMED) {
            Some(0) | None => Text::Record,
            Some(_) => Text::RecordTimed,
        };
        put_text(out, Text::ServiceHead, &[s as u64])?;
        put_line(out, text, record)?;
    }
    Ok(())
}
