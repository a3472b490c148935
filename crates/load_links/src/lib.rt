// The dependencies of a set resolved to sets of services, the settings of each service, and the search for a cycle. Numbers 15 and 16.
#![tactic(auto)]

ghost use Rattle.std.specs.Prelude.{MatchResult, ◌≡◌, ◌≤◌, ◌<◌, leb};
ghost use Rattle.base.specs.Folds.{pick, first};
ghost use Rattle.base.specs.Sets.{has_bit};
ghost use Rattle.base.specs.Links.{reach};
ghost use Rattle.base.proofs.Filled.{Filled};
ghost use Rattle.links.specs.Rows.{rows_as};
ghost use Rattle.service.specs.Limits.{max_services};
ghost use Rattle.load_description.specs.Settings.{word_at};
ghost use Rattle.load_lent.specs.Parts.{service_count};
ghost use Rattle.load_lent.specs.Lents.{names_of, services_of, texts_of};
ghost use Rattle.load_lent.specs.Refusals.{bare};
ghost use Rattle.load_lent.specs.Checks.{find, found};
ghost use Rattle.load_links.specs.Links.{with_link, links_at, links_in, settings_of, services_from, services_in, lowest_cyclic};

use base::has_bit;
use links::{has_cycle, reach_of};
use load_description::{Description, MAX_DEPENDENCIES, Word};
use load_lent::{Lent, Refused};
use load_text::{Fault, Wrong};
use load_word::Link;
use service::{MAX_SERVICES, Settings};

// The services that a service depends on, as sets: by depends-on, by depends-ms and by waits-for.
#[derive(Clone, Copy)]
pub struct Links {
    pub hard: u64,
    pub milestone: u64,
    pub soft: u64,
}

impl Links {
    // Those of a service that depends on none.
    // A constant: no derive of Default makes one.
    const NONE: Links = Links {
        hard: 0,
        milestone: 0,
        soft: 0,
    };

    // A link to service i more, by a property.
    fn with(mut self, by: Link, i: usize) -> Links
        requires { i < 64 }
        ensures { result ≡ with_link self by i }
    {
        let link = 1 << i;
        match by {
            Link::DependsOn => self.hard |= link,
            Link::DependsMs => self.milestone |= link,
            Link::WaitsFor => self.soft |= link,
        }
        self
    }
}

// A lent set of no more services than there are places.
#[derive(Clone, Copy)]
pub struct Set<'a, 'e> {
    pub lent: Lent<'a, 'e>,
    ghost few: { service_count lent.ends.now ≤ max_services },
}

impl<'a, 'e> Set<'a, 'e> {
    // More services than there are places are refused (1).
    pub fn new(lent: Lent<'a, 'e>) -> Result<Set<'a, 'e>, Refused>
        ensures { MatchResult result (λ s. s.lent ≡ lent.entry) (λ r. (r ≡ bare 1 0) × (max_services < services_of lent.entry)) }
    {
        if MAX_SERVICES < lent.count() {
            // No enum: Refused has paper 01's numbers.
            return Err(Refused::bare(1, 0));
        }
        Ok(Set { lent })
    }
}

// The service that the word at an offset of a text names.
fn find_word(lent: Lent, text: &[u8], at: usize) -> Option<usize>
    ensures { let n = services_of lent.entry in result ≡ found n (find (names_of lent.entry) n (word_at text.now at)) }
{
    lent.find(lent.count(), Word::at(text, at).bytes())
}

// The dependencies of one description. One that says that it has more than there are places is not looked through.
#[tactic(auto, using(crate::proofs::Laws::linking))]
fn resolve(set: Set, text: &[u8], d: Description) -> Result<Links, Fault>
    ensures { result ≡ links_in (names_of set.entry.lent) (services_of set.entry.lent) text.now d }
{
    if MAX_DEPENDENCIES < d.count {
        return Err(Wrong::TooManyDependencies.at(0));
    }
    let mut links = Links::NONE;
    for dependency in &d.dependencies[..d.count] {
        let Some(i) = find_word(set.lent, text, dependency.at) else {
            return Err(Wrong::NoSuchService.at(dependency.at));
        };
        links = links.with(dependency.link, i);
    }
    Ok(links)
}

// The settings of a service: those of its description, with what it depends on.
fn settings_of(d: &Description, l: Links) -> Settings
    ensures { result ≡ settings_of d.now l }
{
    Settings {
        hard: l.hard,
        milestone: l.milestone,
        soft: l.soft,
        ..d.settings
    }
}

// The settings of each service, put into the places given.
// Two arrays: a description has the offsets of its text and is let go after the load, and the table keeps settings alone.
#[tactic(auto, using(crate::proofs::Laws::making))]
fn make(
    set: Set,
    ds: &[Description; MAX_SERVICES],
    mut services: [Settings; MAX_SERVICES],
) -> Result<[Settings; MAX_SERVICES], Refused>
    ensures { result ≡ services_from (names_of set.entry.lent) (texts_of set.entry.lent) ds.now (services_of set.entry.lent) services 0 (services_of set.entry.lent) }
{
    for j in 0..set.lent.count() {
        let text = set.lent.text(j);
        let links = resolve(set, text, ds[j]).map_err(|f| Refused::within(text, j, f))?;
        services[j] = settings_of(&ds[j], links);
    }
    Ok(services)
}

// The settings of a set, or the first dependency on a service not in it. More services than there are places are refused (1).
#[tactic(auto, using(crate::proofs::Laws::served))]
pub fn make_services(
    lent: Lent,
    ds: &[Description; MAX_SERVICES],
) -> Result<[Settings; MAX_SERVICES], Refused>
    ensures { result ≡ services_in (names_of lent.entry) (texts_of lent.entry) ds.now (services_of lent.entry) }
{
    let set = Set::new(lent)?;
    make(set, ds, [Settings::default(); MAX_SERVICES])
}

// What each of the first n services depends on.
// A loop: `map` takes the services by value, and goes over all places however few services there are.
fn link_rows(services: &[Settings; MAX_SERVICES], n: usize) -> [u64; MAX_SERVICES]
    requires { n ≤ max_services }
    ensures { Filled 0 (links_at services.now) max_services result n }
{
    let mut rows = [0; MAX_SERVICES];
    for i in 0..n {
        rows[i] = services[i].all_links();
    }
    rows
}

// The lowest number below n that reaches itself by the rows.
// A count beside an array: reach_of takes them so, and the core allocates nothing (docs/HOST.md, "Reentrancy").
fn first_own(n: usize, rows: &[u64; MAX_SERVICES]) -> Option<usize>
    requires { n ≤ max_services }
    ensures { result ≡ found n (first (λ s. has_bit (reach (rows_as rows.now) n s) s) n) }
{
    (0..n).find(|&s| has_bit(reach_of(n, rows, s), s))
}

// The lowest service on a cycle. Only where there is a cycle is each service's reach found.
// A count beside an array: a table is such a pair, and the core allocates nothing (docs/HOST.md, "Reentrancy").
pub fn lowest_cyclic(services: [Settings; MAX_SERVICES], n: usize) -> Option<usize>
    ensures { result ≡ pick (leb n max_services) (found n (lowest_cyclic services n)) None }
{
    if MAX_SERVICES < n {
        return None;
    }
    let rows = link_rows(&services, n);
    if has_cycle(n, &rows) {
        first_own(n, &rows)
    } else {
        None
    }
}
