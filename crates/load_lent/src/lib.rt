// A lent set: the names and texts of its services in one run of bytes, with the positions where they end. Numbers 2 to 5.
#![tactic(auto)]

ghost use Rattle.std.specs.Prelude.{◌≡◌, get_or};
ghost use Rattle.load_lent.specs.Parts.{within, positioned, name_at};
ghost use Rattle.load_lent.specs.Lents.{names_of, services_of, texts_of};
ghost use Rattle.load_lent.specs.Checks.{find, found, names_from, sizes_from};
ghost use Rattle.load_lent.specs.Refusals.{bare, refused_at, refused_in};

use load_text::{Fault, column_number, line_number, part, same_bytes};
use load_word::is_name;

// What refuses a set: paper 01's number, with the service, the line and the column, 0 where there is none.
// Numbers all: guarantee's RefusalsPoint and the calls over plain numbers speak of a refusal by them.
#[derive(Clone, Copy, Debug, PartialEq, Eq)]
pub struct Refused {
    pub number: u8,
    pub service: usize,
    pub line: usize,
    pub column: usize,
}

impl Refused {
    // A refusal that has no line and no column.
    // A number: Refused has paper 01's numbers.
    pub fn bare(number: u8, service: usize) -> Refused
        ensures { result ≡ bare number service }
    {
        Refused {
            number,
            service,
            line: 0,
            column: 0,
        }
    }

    // A fault met in the text of a service, by its number: one of 6 to 12, which a byte decided, has its line and column, 15 the line of the
    // property and column 1.
    // A number: Refused has paper 01's numbers.
    pub fn at(text: &[u8], service: usize, number: u8, at: usize) -> Refused
        ensures { result ≡ refused_at text.now service number at }
    {
        let line = line_number(text, at);
        match number {
            6..=12 => Refused {
                number,
                service,
                line,
                column: column_number(text, at),
            },
            15 => Refused {
                number,
                service,
                line,
                column: 1,
            },
            _ => Refused::bare(number, service),
        }
    }

    // The same, by what is wrong.
    pub fn within(text: &[u8], service: usize, f: Fault) -> Refused
        ensures { result ≡ refused_in text.now service f }
    {
        Refused::at(text, service, u8::from(f.wrong), f.at)
    }
}

// The most bytes of one text.
pub const MAX_TEXT: usize = 4096;

// The most bytes of all texts together.
pub const MAX_TEXTS: usize = 32768;

// A set as it is lent: the names and texts of its services in turn, and the position where each ends.
#[derive(Clone, Copy)]
pub struct Lent<'a, 'e> {
    pub bytes: &'a [u8],
    pub ends: &'e [usize],
}

impl<'a> Lent<'a, '_> {
    // The services, counted as whole pairs of positions.
    pub fn count(self) -> usize
        ensures { result ≡ services_of self.entry }
    {
        self.ends.len() / 2
    }

    // The position at i, or 0 past the last.
    fn position(self, i: usize) -> usize
        ensures { result ≡ get_or self.entry.ends.now i 0 }
    {
        self.ends.get(i).copied().unwrap_or(0)
    }

    // The positions are even in number, do not fall, and end with the lent bytes.
    #[tactic(auto, using(crate::proofs::Laws::rising), unfolding(crate::specs::Parts::positioned))]
    pub fn is_positioned(self) -> bool
        ensures { result ≡ positioned self.entry.bytes.now self.entry.ends.now }
    {
        let mut last = 0;
        // A loop: it carries the last position, with which the lent bytes have to end; is_sorted and last would say it in two steps.
        for &end in self.ends {
            let falls = end < last;
            if falls {
                return false;
            }
            last = end;
        }
        self.ends.len() % 2 == 0 && last == self.bytes.len()
    }

    // The name of service j; past the last service none.
    #[tactic(auto, using(crate::proofs::Laws::name_past), unfolding(crate::specs::Parts::name_at, crate::specs::Parts::name_start))]
    pub fn name(self, j: usize) -> &'a [u8]
        ensures { result.now ≡ names_of self.entry j }
    {
        if self.count() < j {
            return &[];
        }
        let start = if j == 0 { 0 } else { self.position(2 * j - 1) };
        part(self.bytes, start, self.position(2 * j))
    }

    // The text of service j; past the last service none.
    #[tactic(auto, using(crate::proofs::Laws::text_past), unfolding(crate::specs::Parts::text_at))]
    pub fn text(self, j: usize) -> &'a [u8]
        ensures { result.now ≡ texts_of self.entry j }
    {
        if self.count() <= j {
            return &[];
        }
        part(self.bytes, self.position(2 * j), self.position(2 * j + 1))
    }

    // The service of a name among the first n.
    fn find_among(self, n: usize, name: &[u8]) -> Option<usize>
        ensures { result ≡ found n (find (names_of self.entry) n name.now) }
    {
        (0..n).find(|&i| same_bytes(name, self.name(i)))
    }

    // The service of a name among the first n; past the services lent there is nothing to look at.
    pub fn find(self, n: usize, name: &[u8]) -> Option<usize>
        ensures { let few = within n self.entry.ends.now in result ≡ found few (find (names_of self.entry) few name.now) }
    {
        self.find_among(n.min(self.count()), name)
    }

    // Numbers 3 and 4, for each name in turn.
    #[tactic(auto, using(crate::proofs::Laws::naming))]
    pub fn check_names(self) -> Result<(), Refused>
        ensures { result ≡ names_from (names_of self.entry) 0 (services_of self.entry) }
    {
        for j in 0..self.count() {
            let name = self.name(j);
            if !is_name(name) {
                // No enum: Refused has paper 01's numbers.
                return Err(Refused::bare(3, j));
            }
            if self.find_among(j, name).is_some() {
                return Err(Refused::bare(4, j));
            }
        }
        Ok(())
    }

    // Number 5, over all texts.
    #[tactic(auto, using(crate::proofs::Laws::sizing))]
    pub fn check_sizes(self) -> Result<(), Refused>
        ensures { result ≡ sizes_from (texts_of self.entry) 0 0 (services_of self.entry) }
    {
        let mut total = 0;
        for j in 0..self.count() {
            let size = self.text(j).len();
            if size > MAX_TEXT {
                return Err(Refused::bare(5, j));
            }
            total += size;
            if total > MAX_TEXTS {
                return Err(Refused::bare(5, j));
            }
        }
        Ok(())
    }
}

// The name of service j of a set; past the last service none.
// Two parameters: a program has the bytes and the positions apart, as it lent them to the load.
pub fn name_at<'a>(lent: &'a [u8], ends: &[usize], j: usize) -> &'a [u8]
    ensures { result.now ≡ name_at lent.now ends.now j }
{
    Lent { bytes: lent, ends }.name(j)
}
