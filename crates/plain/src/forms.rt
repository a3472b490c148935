// What is asked and answered, in numbers. The types have a module of their own since `event` and `Event` may not stand in one.
ghost use Rattle.std.specs.Prelude.{◌≡◌};
ghost use Rattle.plain.specs.Loads.{numbers_of};

use loader::Refused;

// What happens to the services: a service by its place, whether an end was good, and the time of the clock.
#[derive(Clone, Copy)]
pub enum Event {
    Start(usize),
    Stop(usize),
    StopAll,
    End(usize, bool),
    Clock(u64),
}

// An action in numbers: its service, and what of it.
#[derive(Clone, Copy, Debug, PartialEq, Eq)]
pub struct Handed {
    pub service: u64,
    pub action: u64,
}

// What refuses a load: paper 01's number, with the service, the line and the column.
// Two types: this one has a host's own numbers, of 64 bits, as all that is told here, and Refused those of the loader.
#[derive(Clone, Copy, Debug, PartialEq, Eq)]
pub struct LoadRefused {
    pub number: u64,
    pub service: u64,
    pub line: u64,
    pub column: u64,
}

impl From<Refused> for LoadRefused {
    ghost from_gives = { λ r k. k ≡ numbers_of r };

    fn from(r: Refused) -> LoadRefused {
        LoadRefused {
            number: u64::from(r.number),
            service: r.service as u64,
            line: r.line as u64,
            column: r.column as u64,
        }
    }
}
