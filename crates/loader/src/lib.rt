// A set of descriptions, lent as bytes and positions, loaded to the table of its services. It hands on all that a host of the load needs.
#![tactic(auto)]

mod tokens;

ghost use Rattle.std.specs.Prelude.{◌≡◌, length};
ghost use Rattle.std.proofs.lemmas.List.Edits.{sets};
ghost use Rattle.load_lent.specs.Lents.{services_of, texts_of};
ghost use Rattle.loader.specs.Short.{Short};
ghost use Rattle.loader.specs.Tokens.{bytes_from, commands_from, no_commands};
ghost use Rattle.loader.specs.Texts.{descriptions_from, no_descriptions};
ghost use Rattle.loader.specs.Load.{Outcome, load, refused, stored};
ghost use Rattle.loader.specs.Inner.{outcome};

use load_description::Description;
use load_lent::Lent;
pub use load_lent::{MAX_TEXT, MAX_TEXTS, Refused};
use load_links::{Set, lowest_cyclic, make_services};
use load_reader::read_text;
pub use load_text::LONGEST_NAME;
pub use service::{Kind, MAX_SERVICES, Settings, Signal, Table};
pub use tokens::{Commands, Tokens};
use tokens::{place_service, write_service};

// Where what is kept of each service is, and the room that all of it takes.
#[derive(Clone, Copy)]
pub struct Placed {
    pub commands: [Commands; MAX_SERVICES],
    pub room: usize,
}

// What a load gives: its answer, the table, and where the tokens of each service's command and stop-command are.
// The three stand beside each other: guarantee's RefusedLoadLeavesAll and LoadsFormed say what table a refused load gives.
#[derive(Clone, Copy)]
pub struct Loaded {
    pub answer: Result<(), Refused>,
    pub table: Table,
    pub commands: [Commands; MAX_SERVICES],
}

impl Loaded {
    // What is beside a refusal: the table of no services, and no commands.
    fn refused(r: Refused) -> Loaded
        ensures { result ≡ refused r }
    {
        Loaded {
            answer: Err(r),
            table: Table::empty(),
            commands: [Commands::NONE; MAX_SERVICES],
        }
    }
}

// The texts of the services read in turn, put into the places given.
// Two parameters: the set is the host's and lent, and what is read of it is the load's own.
#[tactic(auto, using(crate::proofs::Laws::reading))]
fn read_into(
    set: Set,
    mut ds: [Description; MAX_SERVICES],
) -> Result<[Description; MAX_SERVICES], Refused>
    ensures { result ≡ descriptions_from (texts_of set.entry.lent) ds 0 (services_of set.entry.lent) }
{
    for j in 0..set.lent.count() {
        let text = set.lent.text(j);
        ds[j] = read_text(text).map_err(|f| Refused::within(text, j, f))?;
    }
    Ok(ds)
}

// The loop is a function of its own: its goals would hold the list of all places (docs/PROVING.md).
fn read_texts(set: Set) -> Result<[Description; MAX_SERVICES], Refused>
    ensures { result ≡ descriptions_from (texts_of set.entry.lent) no_descriptions 0 (services_of set.entry.lent) }
{
    read_into(set, [Description::blank(); MAX_SERVICES])
}

// Finds the place of what is kept of each service, one after the other from the start of the buffer on, put into the places given.
// Two arrays: the descriptions are let go after the load, and the places are given to the host.
#[tactic(auto, using(crate::proofs::Services::placing_end))]
fn place_all(
    set: Set,
    ds: &[Description; MAX_SERVICES],
    mut commands: [Commands; MAX_SERVICES],
) -> Placed
    requires { Short (texts_of set.lent) (services_of set.lent) }
    ensures { let text = texts_of set.entry.lent in let n = services_of set.entry.lent in result ≡ record { commands = commands_from text ds.now 0 commands 0 n; room = length (bytes_from text ds.now 0 n) } }
{
    let mut room = 0;
    for j in 0..set.lent.count() {
        let place = place_service(set.lent.text(j), &ds[j], room);
        commands[j] = place.commands;
        room = place.end;
    }
    Placed { commands, room }
}

// Writes what is kept of each service to its place.
// Two arrays: as for place_all.
#[tactic(auto, using(crate::proofs::Services::writing_none, crate::proofs::Services::writing_more))]
fn write_all(
    set: Set,
    ds: &[Description; MAX_SERVICES],
    commands: &[Commands; MAX_SERVICES],
    tokens: &mut [u8],
)
    requires { commands.now ≡ commands_from (texts_of set.lent) ds.now 0 no_commands 0 (services_of set.lent) }
    ensures { tokens.new ≡ sets tokens.old 0 (bytes_from (texts_of set.entry.lent) ds.now 0 (services_of set.entry.lent)) }
{
    for j in 0..set.lent.count() {
        write_service(set.lent.text(j), &ds[j], commands[j], tokens);
    }
}

// The last of the load: 25, or the tokens written and the table given.
// Two arrays: the descriptions are let go after the load, and the table keeps settings alone.
#[tactic(auto, using(crate::proofs::Outcomes::storing))]
fn store(
    set: Set,
    ds: &[Description; MAX_SERVICES],
    services: [Settings; MAX_SERVICES],
    tokens: &mut [u8],
) -> Result<Loaded, Refused>
    requires { Short (texts_of set.lent) (services_of set.lent) }
    ensures { ◌≡◌ {A = Outcome} (outcome tokens.new result) (stored (texts_of set.entry.lent) tokens.old (services_of set.entry.lent) ds.now services) }
{
    let placed = place_all(set, ds, [Commands::NONE; MAX_SERVICES]);
    let room = placed.room;
    if tokens.len() < room {
        // No enum: Refused has paper 01's numbers.
        return Err(Refused::bare(25, 0));
    }
    write_all(set, ds, &placed.commands, tokens);
    Ok(Loaded {
        answer: Ok(()),
        table: Table {
            count: set.lent.count(),
            services,
        },
        commands: placed.commands,
    })
}

// The checks in paper 01's order.
#[tactic(auto, using(crate::proofs::Outcomes::checking))]
fn try_load(lent: Lent, tokens: &mut [u8]) -> Result<Loaded, Refused>
    ensures { ◌≡◌ {A = Outcome} (outcome tokens.new result) (load lent.entry.bytes.now lent.entry.ends.now tokens.old) }
{
    let set = Set::new(lent)?;
    // The set's own, so that all that the checks say is of one.
    let lent = set.lent;
    if !lent.is_positioned() {
        return Err(Refused::bare(2, 0));
    }
    lent.check_names()?;
    lent.check_sizes()?;
    let ds = read_texts(set)?;
    let services = make_services(lent, &ds)?;
    if let Some(low) = lowest_cyclic(services, lent.count()) {
        return Err(Refused::bare(16, low));
    }
    store(set, &ds, services, tokens)
}

// Loads a set: lent has each service's name and text in turn, ends the position where each ends. The tokens of the commands go to the
// lent buffer; a refusal leaves it as it was.
// Two parameters: so docs/HOST.md has a host call it.
pub fn load(lent: &[u8], ends: &[usize], tokens: &mut [u8]) -> Loaded
    ensures { ◌≡◌ {A = Outcome} (record { loaded = result; buffer = tokens.new }) (load lent.now ends.now tokens.old) }
{
    try_load(Lent { bytes: lent, ends }, tokens).unwrap_or_else(Loaded::refused)
}
