// What one description holds: its settings and the dependencies that it names, and what a line with a good value adds to them.
#![tactic(auto)]

ghost use Rattle.std.specs.Prelude.{◌≡◌, ℕ, ◌≤◌, List, take};
ghost use Rattle.load_text.specs.Lines.{fault};
ghost use Rattle.load_text.specs.declared.Wrong.TheVariants.{OutsideRule};
ghost use Rattle.load_value.specs.Stores.{Puts};
ghost use Rattle.load_value.specs.Values.{is_word, word_of, word_room};
ghost use Rattle.load_description.specs.Settings.{blank, value_at, word_at, max_dependencies, taken_of, is_dependency, known};
ghost use Rattle.load_description.specs.Lines.{command_read, dependency_read, word_read, tokens_read};
ghost use Rattle.load_description.specs.Texts.{needs_command, completion};

use load_text::{Fault, Wrong, line_end, part, same_bytes};
use load_value::{LONGEST_WORD, Sizes, WORD_ROOM, write_word};
use load_word::{Command, Link, Property, is_name, read_kind, read_setting};
use service::{Kind, Settings};
use std::marker::Model;

// How many dependencies a service may have.
pub const MAX_DEPENDENCIES: usize = 16;

// A dependency as the text has it: by which property, and the offset where its value begins.
#[derive(Clone, Copy)]
pub struct Dependency {
    pub link: Link,
    pub at: usize,
}

// The offsets where the values that are kept begin.
#[derive(Clone, Copy)]
pub struct Kept {
    pub command: Option<usize>,
    pub stop: Option<usize>,
}

// What the lines so far say: the settings, but for the services depended on; whether there was a type; what is kept; the dependencies.
// A flag for the type: the settings hold one by default, so an Option beside them would hold it twice.
// An array with its count: the core allocates nothing (docs/HOST.md, "Reentrancy"), and one Description is put into all places of an array.
#[derive(Clone, Copy)]
pub struct Description {
    pub settings: Settings,
    pub typed: bool,
    pub kept: Kept,
    pub count: usize,
    pub dependencies: [Dependency; MAX_DEPENDENCIES],
}

// What a line does: nothing; a type; other settings; a command, or a dependency more, whose value begins at an offset.
// An own enum: nothing is one of five effects; an Option around the other four would be two types to go by, and no plainer.
#[derive(Clone, Copy)]
pub enum Effect {
    Nothing,
    Kind(Kind),
    Settings(Settings),
    Command(Command, usize),
    Dependency(Link, usize),
}

// A line's value in the text: the offset where it begins, and that of its first byte which is no white space.
#[derive(Clone, Copy)]
pub struct Value<'t> {
    pub text: &'t [u8],
    pub at: usize,
    pub seen: usize,
}

// The word that a value is; of one that is too long for a word, as much as there is room for.
// A length beside a buffer: the core allocates nothing (docs/HOST.md, "Reentrancy"); contracts see the bytes alone.
#[derive(Drop)]
pub struct Word {
    buffer: [u8; WORD_ROOM],
    length: usize,
}

impl Model for Word {
    ghost Value = { List ℕ };

    ghost view = { λ w. take w.length w.buffer };

    ghost invariant = { λ w. w.length ≤ word_room };
}

impl Word {
    // The word that a value is.
    fn of(value: &[u8]) -> Word
        ensures { result ≡ word_of value.now }
    {
        let mut buffer = [0u8; WORD_ROOM];
        let length = write_word(value, &mut buffer);
        Word { buffer, length }
    }

    // The word whose value begins at an offset.
    #[tactic(auto, unfolding(crate::specs::Settings::word_at))]
    pub fn at(text: &[u8], at: usize) -> Word
        ensures { result ≡ word_at text.now at }
    {
        Word::of(value_at(text, at))
    }

    pub fn bytes(&self) -> &[u8]
        ensures { result.now ≡ self.now }
    {
        &self.buffer[..self.length]
    }
}

impl Value<'_> {
    // It is outside its property's rule.
    fn outside(self) -> Fault
        ensures { result ≡ fault OutsideRule self.entry.seen }
    {
        Wrong::OutsideRule.at(self.seen)
    }
}

impl Dependency {
    // It is one of the kind on the word.
    // Two parameters: a struct of link and word would be made in one place and taken apart here, no plainer.
    fn is_on(self, text: &[u8], link: Link, word: &[u8]) -> bool
        ensures { result ≡ is_dependency text.now self link word.now }
    {
        self.link == link && same_bytes(Word::at(text, self.at).bytes(), word)
    }
}

impl Description {
    // All settings by default, no type, nothing kept and no dependencies.
    pub fn blank() -> Description
        ensures { result ≡ blank }
    {
        let none = Dependency {
            link: Link::DependsOn,
            at: 0,
        };
        Description {
            settings: Settings::default(),
            typed: false,
            kept: Kept {
                command: None,
                stop: None,
            },
            count: 0,
            dependencies: [none; MAX_DEPENDENCIES],
        }
    }

    // It has a dependency of the kind on the word.
    fn has(&self, text: &[u8], link: Link, word: &[u8]) -> bool
        ensures { result ≡ known text.now self.now link word.now }
    {
        (0..taken(self.count)).any(|k| self.dependencies[k].is_on(text, link, word))
    }

    // A dependency on a word.
    #[tactic(auto, unfolding(crate::specs::Lines::dependency_read))]
    fn read_dependency(&self, link: Link, value: Value, word: &[u8]) -> Result<Effect, Fault>
        ensures { result ≡ dependency_read value.entry.text.now self.now link value.entry.at value.entry.seen word.now }
    {
        if self.has(value.text, link, word) {
            return Ok(Effect::Nothing);
        }
        if self.count < MAX_DEPENDENCIES {
            return Ok(Effect::Dependency(link, value.at));
        }
        Err(Wrong::TooManyDependencies.at(value.seen))
    }

    // A line of a property that takes a word.
    // A match: each kind of property has a rule of its own, with an effect of its own; functions of one type for them would be no plainer.
    #[tactic(auto, unfolding(crate::specs::Lines::word_read))]
    fn read_word(&self, p: Property, value: Value, word: &[u8]) -> Result<Effect, Fault>
        ensures { result ≡ word_read value.entry.text.now self.now p value.entry.at value.entry.seen word.now }
    {
        match p {
            Property::Kind => read_kind(word).map(Effect::Kind).ok_or(value.outside()),
            Property::Setting(s) => read_setting(s, word, self.settings)
                .map(Effect::Settings)
                .ok_or(value.outside()),
            Property::Link(link) => {
                if is_name(word) {
                    return self.read_dependency(link, value, word);
                }
                Err(value.outside())
            }
            Property::Command(_) | Property::Unknown => Err(value.outside()),
        }
    }

    // A line whose value has no fault.
    #[tactic(auto, unfolding(crate::specs::Lines::tokens_read))]
    pub fn read_tokens(
        &self,
        p: Property,
        value: Value,
        sizes: Sizes,
        bytes: &[u8],
    ) -> Result<Effect, Fault>
        ensures { result ≡ tokens_read value.entry.text.now self.now p value.entry.at value.entry.seen sizes bytes.now }
    {
        if let Property::Command(c) = p {
            return read_command(c, value, sizes);
        }
        if is_word(sizes) {
            let word = Word::of(bytes);
            return self.read_word(p, value, word.bytes());
        }
        Err(value.outside())
    }

    // 13 and 14.
    #[tactic(auto, unfolding(crate::specs::Texts::completion))]
    pub fn complete(&self) -> Result<(), Fault>
        ensures { result ≡ completion self.now }
    {
        if !self.typed {
            return Err(Wrong::NoType.at(0));
        }
        if needs_command(self.settings.kind) && self.kept.command.is_none() {
            return Err(Wrong::NoCommand.at(0));
        }
        Ok(())
    }
}

// The value that begins at an offset goes to the line's end.
#[tactic(auto, unfolding(crate::specs::Settings::value_at))]
pub fn value_at(text: &[u8], at: usize) -> &[u8]
    ensures { result.now ≡ value_at text.now at }
{
    part(text, at, line_end(text, at))
}

// Writes the word that begins at an offset to a caller's buffer, as far as it fits, and answers the word's length.
#[tactic(auto, unfolding(crate::specs::Settings::word_at))]
pub fn write_word_at(text: &[u8], at: usize, buffer: &mut [u8]) -> usize
    ensures { Puts buffer.old 0 (word_at text.now at) buffer.new result }
{
    write_word(value_at(text, at), buffer)
}

// How many places of the dependencies are taken.
pub fn taken(count: usize) -> usize
    ensures value { result ≡ taken_of count }
    ensures few { result ≤ max_dependencies }
{
    count.min(MAX_DEPENDENCIES)
}

// A value that is exactly one token, of 1 to 32 bytes.
fn is_word(sizes: Sizes) -> bool
    ensures { result ≡ is_word sizes }
{
    sizes.tokens == 1 && 0 < sizes.first && sizes.first <= LONGEST_WORD
}

// A line of a command.
fn read_command(c: Command, value: Value, sizes: Sizes) -> Result<Effect, Fault>
    ensures { result ≡ command_read c value.entry.at value.entry.seen sizes }
{
    if 0 < sizes.first {
        return Ok(Effect::Command(c, value.at));
    }
    Err(value.outside())
}

// A service of this type is launched by a command.
fn needs_command(k: Kind) -> bool
    ensures { result ≡ needs_command k }
{
    matches!(k, Kind::Process | Kind::Scripted)
}
