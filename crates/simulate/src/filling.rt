// A text with numbers in the places of its marks, put into the output.
use scenario_replies::{TEXTS, Text};
use scenario_words::piece;
use std::io;
use std::io::Write;

// Puts the members of a set in ascending order, with a comma between them.
fn put_set(out: &mut impl Write, set: u64) -> io::Result<()> {
    let mut parting: &[u8] = b"";
    for member in 0..64u32 {
        if set >> member & 1 == 1 {
            out.write_all(parting)?;
            write!(out, "{member}")?;
            parting = b",";
        }
    }
    Ok(())
}

// Puts the name at a place of a list.
fn put_name(out: &mut impl Write, texts: &[u8], list: Text, place: u64) -> io::Result<()> {
    let names = piece(texts, b'\n', list.place());
    out.write_all(piece(names, b' ', place as usize))
}

fn is_mark(byte: u8) -> bool {
    matches!(byte, b'#' | b'~' | b'A'..=b'Z')
}

// Puts a number in the place of a mark.
fn put_mark(out: &mut impl Write, texts: &[u8], mark: u8, number: u64) -> io::Result<()> {
    match mark {
        b'#' => write!(out, "{number}"),
        b'M' => put_set(out, number),
        b'P' => put_name(out, texts, Text::Phases, number),
        b'C' => put_name(out, texts, Text::Causes, number),
        b'K' => put_name(out, texts, Text::Kinds, number),
        b'G' => put_name(out, texts, Text::Signals, number),
        b'Y' => put_name(out, texts, Text::Restarts, number),
        _ => Ok(()),
    }
}

// Puts a text with a number at each mark.
pub(crate) fn put_text(out: &mut impl Write, text: Text, numbers: &[u64]) -> io::Result<()> {
    let texts = &TEXTS;
    let mut numbers = numbers.iter();
    for &byte in piece(texts, b'\n', text.place()) {
        if is_mark(byte) {
            let number = numbers.next().copied().unwrap_or(0);
            put_mark(out, texts, byte, number)?;
        } else {
            out.write_all(&[byte])?;
        }
    }
    Ok(())
}

// The same as a line.
pub(crate) fn put_line(out: &mut impl Write, text: Text, numbers: &[u64]) -> io::Result<()> {
    put_text(out, text, numbers)?;
    out.write_all(b"\n")
}
