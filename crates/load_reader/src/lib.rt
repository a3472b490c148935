// A description read line by line: each line's answer, what it does to the settings, and the whole text.
#![tactic(auto)]

ghost use Rattle.std.specs.Prelude.{◌≡◌, ◌+◌, ◌<◌, IfErr, MatchResult, Ok, Some, length};
ghost use Rattle.load_text.specs.Lines.{fault, lines_of};
ghost use Rattle.load_text.proofs.Lines.{Inside};
ghost use Rattle.load_description.specs.Settings.{blank, affected};
ghost use Rattle.load_description.specs.Lines.{property_read, line_read};
ghost use Rattle.load_description.specs.Texts.{lines_read, text_read};

use load_description::{Dependency, Description, Effect, MAX_DEPENDENCIES, Value};
use load_text::{Fault, Places, Wrong, first_bad, line_end, opening_of, part, tail, white_end};
use load_value::scan_value;
use load_word::{Command, Property, find_property, with_kind};

// What a line does to the description: a setting or a command takes the place of an earlier one, and dependencies add up.
// No method of Description: in load_description it would be public, and a public function has no `requires` (docs/DESIGN.md).
fn affect(d: &mut Description, e: Effect)
    requires { d.old.count < 18446744073709551615 }
    ensures { d.new ≡ affected d.old e }
{
    match e {
        Effect::Nothing => {}
        Effect::Kind(k) => {
            d.settings = with_kind(k, d.settings);
            d.typed = true;
        }
        Effect::Settings(v) => {
            d.settings = v;
        }
        Effect::Command(c, at) => match c {
            Command::Start => {
                d.kept.command = Some(at);
            }
            Command::Stop => {
                d.settings.has_stop = true;
                d.kept.stop = Some(at);
            }
        },
        Effect::Dependency(link, at) => {
            let k = d.count;
            d.count += 1;
            let places = &mut d.dependencies[..];
            // A test: with get_mut the proof did not close.
            if k < places.len() {
                places[k] = Dependency { link, at };
            }
        }
    }
}

// What was read of a part of the text that begins at an offset: its fault is told by the offset in the text.
fn told_from<T>(from: usize, read: Result<T, Fault>) -> Result<T, Fault>
    requires { IfErr read (λ f. from + f.at < 18446744073709551616) }
    ensures { MatchResult read (λ x. result ≡ Ok x) (λ f. result ≡ Err (fault f.wrong (from + f.at))) }
{
    read.map_err(|f| f.wrong.at(from + f.at))
}

// A line by its property; the line begins at the offset `from`.
#[tactic(auto, unfolding(load_description::specs::Lines::property_read))]
fn read_property(
    text: &[u8],
    d: &Description,
    from: usize,
    line: &[u8],
    s: Places,
    p: Property,
) -> Result<Effect, Fault>
    requires { (from + length line.now < 9223372036854775808) × Inside (length line.now) (Ok (Some s)) }
    ensures { result ≡ property_read text.now d.now from line.now s p }
{
    if matches!(p, Property::Unknown) {
        return Err(Wrong::UnknownProperty.at(from + s.from));
    }
    let value = Value {
        text,
        at: from + s.value,
        seen: from + white_end(line, s.value),
    };
    let bytes = tail(line, s.value);
    let sizes = told_from(value.at, scan_value(bytes))?;
    d.read_tokens(p, value, sizes, bytes)
}

// The answer to a line, which begins at the offset `from`.
#[tactic(auto, unfolding(load_description::specs::Lines::line_read))]
fn read_line(text: &[u8], d: &Description, from: usize, line: &[u8]) -> Result<Effect, Fault>
    requires { from + length line.now < 9223372036854775808 }
    ensures { result ≡ line_read text.now d.now from line.now }
{
    let Some(s) = told_from(from, opening_of(line))? else {
        return Ok(Effect::Nothing);
    };
    let p = find_property(part(line, s.from, s.end));
    read_property(text, d, from, line, s, p)
}

// The lines of a text with no bad byte.
fn read_lines(text: &[u8]) -> Result<Description, Fault>
    ensures { result ≡ lines_read text.now blank 0 (lines_of text.now) }
{
    let mut d = Description::blank();
    let mut from = 0;
    // A while: the measure is the text that is left, and each line says where the next begins.
    while from < text.len() {
        let end = line_end(text, from);
        let answer = read_line(text, &d, from, part(text, from, end));
        // Paper 01's form: the line reader's answer is taken apart by let .. else.
        let Ok(effect) = answer else {
            return answer.and(Ok(d));
        };
        affect(&mut d, effect);
        from = end + 1;
    }
    d.complete()?;
    Ok(d)
}

// The description that a text is, or its first fault.
#[tactic(auto, unfolding(load_description::specs::Texts::text_read))]
pub fn read_text(text: &[u8]) -> Result<Description, Fault>
    ensures { result ≡ text_read text.now }
{
    first_bad(text)?;
    read_lines(text)
}
