// The load and the calls over plain numbers: table and state are lent as numbers, and the answers are numbers. A call with numbers that stand
// for no table or no state is refused with 24.
#![tactic(auto)]

mod forms;

ghost use Rattle.std.specs.Prelude.{◌≡◌};
ghost use Rattle.loader.specs.Load.{load as loading};
ghost use Rattle.rules.specs.Calls.{next, query as asking, run, outcome, changed_outcome};
ghost use Rattle.plain.specs.Calls.{call_of, meant, on, event_of, next_of, run_of, asked_of, handed_of, Called, Written};
ghost use Rattle.plain.specs.Told.{checked, numbered, state_kept};
ghost use Rattle.plain.specs.Loads.{counts_of, Kept};

pub use forms::{Event, Handed, LoadRefused};
use loader::{Commands, Loaded};
use plain_encoding::{
    Numbers, is_state, is_table, read_state, read_table, write_state, write_table,
};
use service::{Action, Answered, MAX_SERVICES, Refusal, State, Table};

// ---- the calls

// 24 where the numbers stand for no table, or for no state.
// Two parameters, here and in each call: a host has table and state as arrays of its own, and a struct of both for each call is no plainer.
fn check(table: &Numbers, state: &Numbers) -> Result<(), u64>
    ensures { result ≡ checked (meant table.now state.now) }
{
    if is_table(table) && is_state(state) {
        Ok(())
    } else {
        Err(u64::from(Refusal::IllFormed))
    }
}

// The answer of a call, whose state is written where it was not refused.
fn keep<A: Copy>(state: &mut Numbers, called: Answered<A>) -> Result<A, u64>
    ensures answer { result ≡ numbered called.answer }
    ensures left { state.new ≡ state_kept state.old called.answer called.state }
{
    let answer = called.answer?;
    write_state(state, called.state);
    Ok(answer)
}

// What an event does to the state.
fn change(t: Table, x: State, e: Event) -> Answered<()>
    ensures { changed_outcome result ≡ outcome t x (call_of e) }
{
    // A match of cases: each call has parameters of its own, and a closure for each is no plainer.
    match e {
        Event::Start(s) => engine::start(t, x, s),
        Event::Stop(s) => engine::stop(t, x, s),
        Event::StopAll => engine::stop_all(t, x),
        Event::End(s, good) => engine::end(t, x, s, good),
        Event::Clock(to) => engine::clock(t, x, to),
    }
}

// An event: done, or the number of its refusal.
pub fn event(table: &Numbers, state: &mut Numbers, e: Event) -> Result<(), u64>
    ensures { Called event_of (on table.now state.old (call_of e)) state.old result state.new }
{
    check(table, state)?;
    let changed = change(read_table(table), read_state(state), e);
    keep(state, changed)
}

// An action in numbers, none where all is quiet.
fn handed(a: Action) -> Option<Handed>
    ensures { result ≡ handed_of a }
{
    (a != Action::Quiet).then_some(Handed {
        service: a.service(),
        action: a.number(),
    })
}

// The next action, none where all is quiet; its change of the state is kept.
pub fn next_action(table: &Numbers, state: &mut Numbers) -> Result<Option<Handed>, u64>
    ensures { Called next_of (on table.now state.old next) state.old result state.new }
{
    check(table, state)?;
    let stepped = engine::next_action(read_table(table), read_state(state));
    keep(state, stepped).map(handed)
}

// A run to quiet, with the services and the actions in the two lent slices: how many actions there were.
// Two slices: `run` of rules.specs.Calls is lent one for the services and one for the actions.
pub fn run_to_quiet(
    table: &Numbers,
    state: &mut Numbers,
    services: &mut [u64],
    actions: &mut [u64],
) -> Result<u64, u64>
    ensures called { Called run_of (on table.now state.old (run services.old actions.old)) state.old result state.new }
    ensures written { Written (on table.now state.old (run services.old actions.old)) services.new actions.new }
{
    check(table, state)?;
    let ran = engine::run_to_quiet(read_table(table), read_state(state), services, actions);
    keep(state, ran).map(|count| count as u64)
}

// The earliest time at which a service may have something to do, if any.
pub fn query(table: &Numbers, state: &Numbers) -> Result<Option<u64>, u64>
    ensures { result ≡ asked_of (on table.now state.now asking).answer }
{
    check(table, state)?;
    engine::query(read_table(table), read_state(state)).map_err(u64::from)
}

// ---- the load

// How many tokens each command has, command before stop-command, service by service.
pub const COUNTS: usize = 2 * MAX_SERVICES;

pub type Counts = [u64; COUNTS];

// Puts how many tokens the two commands of each service have.
fn write_counts(counts: &mut Counts, commands: &[Commands; MAX_SERVICES])
    ensures { counts.new ≡ counts_of counts.old commands.now }
{
    for (s, kept) in commands.iter().enumerate() {
        counts[2 * s] = kept.start.count as u64;
        counts[2 * s + 1] = kept.stop.count as u64;
    }
}

// Writes what an accepted load gave, and the fresh state, and tells how many services there are; a refused one leaves all as it was.
fn keep_loaded(
    loaded: Loaded,
    table: &mut Numbers,
    state: &mut Numbers,
    counts: &mut Counts,
) -> Result<u64, LoadRefused>
    ensures { Kept loaded table.old state.old counts.old result table.new state.new counts.new }
{
    loaded.answer?;
    write_table(table, loaded.table);
    write_state(state, State::fresh());
    write_counts(counts, &loaded.commands);
    Ok(loaded.table.count as u64)
}

// Loads a set, as the loader does: a refusal leaves all that is lent as it was.
// Two slices: as `load` of loader.specs.Load is lent the bytes and the positions.
pub fn load(
    lent: &[u8],
    ends: &[usize],
    tokens: &mut [u8],
    table: &mut Numbers,
    state: &mut Numbers,
    counts: &mut Counts,
) -> Result<u64, LoadRefused>
    ensures kept { Kept (loading lent.now ends.now tokens.old).loaded table.old state.old counts.old result table.new state.new counts.new }
    ensures tokens_after { tokens.new ≡ (loading lent.now ends.now tokens.old).buffer }
{
    keep_loaded(loader::load(lent, ends, tokens), table, state, counts)
}
