// A line of a scenario, read to what it asks for. A line is held to forms in turn, word by word; some lines are known by
// their first byte or word, and a load with positions has a form of its own.
#![tactic(auto)]

ghost use Rattle.std.specs.Prelude.{◌≡◌, ◌≤◌};
ghost use Rattle.std.specs.List.{slice_get};
ghost use Rattle.scenario_words.specs.Pieces.{pieces_of};
ghost use Rattle.scenario_lines.specs.Forms.{named_verbs, most_of, value_of, value_at, begins_as, fits_form, form_of, read_form};
ghost use Rattle.scenario_lines.specs.Lines.{most_positions, are_numbers, read_load, read_parted, opening_of, has_needed, command_of};

use load_text::{byte_at, same_bytes, tail};
use scenario_words::{number, number_to, piece, pieces, place};
use service::MAX_SERVICES;

// What a line asks for: the verb of the form that it fits, in the order of the forms, or one that a first byte or word tells. A line
// that sets a number of a record or of a service's settings has its place among those.
// A case: `Nothing` is a line that the format has (docs/SCENARIO.md), and no missing one.
// Two numbers: SetRecord and SetTable have the place among a record's and a table's numbers, as record_numbers and settings_numbers order them.
#[derive(Clone, Copy, PartialEq, Eq)]
pub enum Verb {
    Next,
    Run,
    RunIn,
    Start,
    Stop,
    StopAll,
    End,
    Clock,
    Query,
    State,
    Show,
    SetClock,
    SetRecord(usize),
    SetCount,
    SetTable(usize),
    Load,
    LoadNone,
    LoadAt,
    Nothing,
    Begin,
    AddLine,
    AddPiece,
}

// A verb with the numbers of the line's second word and of its last. A load with positions has its room and how many they
// are. What is not there is 0.
// A struct: a form has up to two numbers, wherever they stand in it, and 22 cases with data would be read by as many lines; no plainer.
#[derive(Clone, Copy)]
pub struct Command {
    pub verb: Verb,
    pub first: u64,
    pub last: u64,
}

// The most positions that a load may be given: two for each service, and of three services more than a set may have.
pub const MOST_POSITIONS: usize = 2 * (MAX_SERVICES + 3);

// The forms, one on a line: # stands for a number, #256 for one up to 256, #service for one that a service may have, and | separates the words
// of which a line has one.
// A text: the forms stand one on a line, as docs/SCENARIO.md has them; a table of 35 byte strings with their verbs is no plainer.
const FORMS: [u8; 740] = *b"next
run
run #256 #256
start #
stop #
stop-all
end # bad|good
clock #
query
state
show
set clock #
set #service phase down|waiting|starting|up|ending
set #service wanted 0|1
set #service aside 0|1
set #service live 0|1
set #service cause none|user|released|fell|failed
set #service deadline none
set #service deadline #
set #service killed 0|1
set #service not-before #
set #service last-launch #
set #service window-start #
set #service restarts #
table count #
table #service restart-delay #
table #service restart-limit-interval #
table #service restart-limit-count #
table #service start-timeout #
table #service stop-timeout #
table #service depends-on #
table #service depends-ms #
table #service waits-for #
load #65536
load #65536 -";

// The form of a load, whose room its line has where positions follow it.
const LOAD: &[u8] = b"load #65536";

// The verbs of the forms, in their order.
const VERBS: [Verb; 35] = [
    Verb::Next,
    Verb::Run,
    Verb::RunIn,
    Verb::Start,
    Verb::Stop,
    Verb::StopAll,
    Verb::End,
    Verb::Clock,
    Verb::Query,
    Verb::State,
    Verb::Show,
    Verb::SetClock,
    Verb::SetRecord(0),
    Verb::SetRecord(1),
    Verb::SetRecord(2),
    Verb::SetRecord(3),
    Verb::SetRecord(4),
    Verb::SetRecord(5),
    Verb::SetRecord(6),
    Verb::SetRecord(7),
    Verb::SetRecord(8),
    Verb::SetRecord(9),
    Verb::SetRecord(10),
    Verb::SetRecord(11),
    Verb::SetCount,
    Verb::SetTable(0),
    Verb::SetTable(1),
    Verb::SetTable(2),
    Verb::SetTable(3),
    Verb::SetTable(4),
    Verb::SetTable(5),
    Verb::SetTable(6),
    Verb::SetTable(7),
    Verb::Load,
    Verb::LoadNone,
];

// The verbs of the forms. That they stand for these forms is what it promises.
pub fn named_verbs() -> [Verb; 35]
    ensures { result ≡ named_verbs }
{
    VERBS
}

// The verb of the form at a place, where there is one.
fn verb_at(place: usize) -> Option<Verb>
    ensures { result ≡ slice_get named_verbs place }
{
    VERBS.get(place).copied()
}

// The most that a number may be where a form has this word.
#[tactic(auto, unfolding(load_text::specs::Strings::bytes, crate::specs::Forms::most_of))]
fn most(form: &[u8]) -> u64
    ensures { result ≡ most_of form.now }
{
    if same_bytes(form, b"#service") {
        MAX_SERVICES as u64 - 1
    } else {
        number(tail(form, 1)).unwrap_or(u64::MAX)
    }
}

// The number that a word is where a form has this word: a number, or its place among the choices.
fn value(form: &[u8], given: &[u8]) -> Option<u64>
    ensures { result ≡ value_of form.now given.now }
{
    if byte_at(form, 0) == b'#' {
        number_to(given, most(form))
    } else {
        place(form, b'|', given).map(|k| k as u64)
    }
}

// A line held to a form, word by word.
#[derive(Clone, Copy)]
struct Held<'a> {
    form: &'a [u8],
    line: &'a [u8],
}

impl Held<'_> {
    fn value_at(&self, k: usize) -> Option<u64>
        ensures { result ≡ value_at self.now.form.now self.now.line.now k }
    {
        value(piece(self.form, b' ', k), piece(self.line, b' ', k))
    }

    // The first words of the line fit those of the form.
    fn begins_as(&self, count: usize) -> bool
        ensures { result ≡ begins_as self.now.form.now self.now.line.now count }
    {
        (0..count).all(|k| self.value_at(k).is_some())
    }

    fn fits(&self) -> bool
        ensures { result ≡ fits_form self.now.form.now self.now.line.now }
    {
        let count = pieces(self.form, b' ');
        pieces(self.line, b' ') == count && self.begins_as(count)
    }

    // What a line that fits asks for.
    fn read(&self, verb: Verb) -> Command
        ensures { result ≡ read_form self.now.form.now self.now.line.now verb }
    {
        let end = pieces(self.form, b' ').saturating_sub(1);
        Command {
            verb,
            first: self.value_at(1).unwrap_or(0),
            last: self.value_at(end).unwrap_or(0),
        }
    }
}

// The place of the first form that a line fits.
fn form_of(forms: &[u8], line: &[u8]) -> Option<usize>
    ensures { result ≡ form_of (pieces_of 10 forms.now) line.now }
{
    forms
        .split(|b| *b == b'\n')
        .position(|form| Held { form, line }.fits())
}

// The positions of a load, its words from the third on, are numbers.
fn are_numbers(line: &[u8], count: usize) -> bool
    requires { count ≤ most_positions }
    ensures { result ≡ are_numbers line.now count }
{
    (0..count).all(|i| number(piece(line, b' ', i + 2)).is_some())
}

// A line that fits no form: a load with positions, or none.
#[tactic(auto, unfolding(load_text::specs::Strings::bytes))]
fn read_load(line: &[u8]) -> Option<Command>
    ensures { result ≡ read_load line.now }
{
    let count = pieces(line, b' ');
    if count < 3 || MOST_POSITIONS + 2 < count {
        return None;
    }
    let positions = count - 2;
    let held = Held { form: LOAD, line };
    if held.begins_as(2) && are_numbers(line, positions) {
        Some(Command {
            verb: Verb::LoadAt,
            first: held.value_at(1).unwrap_or(0),
            last: positions as u64,
        })
    } else {
        None
    }
}

// A line that is separated into words.
fn read_parted(forms: &[u8], line: &[u8]) -> Option<Command>
    ensures { result ≡ read_parted (pieces_of 10 forms.now) line.now }
{
    match form_of(forms, line) {
        Some(place) => {
            let verb = verb_at(place)?;
            let form = piece(forms, b'\n', place);
            Some(Held { form, line }.read(verb))
        }
        None => read_load(line),
    }
}

// What a line is that its first byte or word decides, or that has no bytes.
#[tactic(auto, unfolding(load_text::specs::Strings::bytes, crate::specs::Lines::opening_of))]
fn opening(line: &[u8]) -> Option<Verb>
    ensures { result ≡ opening_of line.now }
{
    let byte = byte_at(line, 0);
    if line.is_empty() || byte == b'%' {
        Some(Verb::Nothing)
    } else if same_bytes(piece(line, b' ', 0), b"service") && 1 < pieces(line, b' ') {
        Some(Verb::Begin)
    } else if byte == b'|' {
        Some(Verb::AddLine)
    } else if byte == b'!' {
        Some(Verb::AddPiece)
    } else {
        None
    }
}

// A line comes after what it needs: a service for a text, a loaded set for all but a load and what has no answer.
fn has_needed(verb: Verb, begun: bool, loaded: bool) -> bool
    ensures { result ≡ has_needed verb begun loaded }
{
    match verb {
        Verb::AddLine | Verb::AddPiece => begun,
        Verb::Load | Verb::LoadNone | Verb::LoadAt | Verb::Nothing | Verb::Begin => true,
        _ => loaded,
    }
}

// A line without its newline, after what came before it: whether a service was begun, and whether a set is loaded. There
// is none where it is bad: where it fits no form, or comes before what it needs.
#[tactic(auto, unfolding(load_text::specs::Strings::bytes, scenario_words::specs::Pieces::pieces_of, crate::specs::Forms::forms))]
pub fn read_line(line: &[u8], begun: bool, loaded: bool) -> Option<Command>
    ensures { result ≡ command_of line.now begun loaded }
{
    let command = match opening(line) {
        Some(verb) => Command {
            verb,
            first: 0,
            last: 0,
        },
        None => read_parted(&FORMS, line)?,
    };
    has_needed(command.verb, begun, loaded).then_some(command)
}
