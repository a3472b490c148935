// The choice of the next action: the first rule with any service that it fits, lowest service first. Who asks makes two passes over
// the services: the first gathers where they stand, the second whom each rule fits; then the choice is made from the sets.
#![tactic(auto)]

mod standing;

ghost use Rattle.std.specs.Prelude.{◌≡◌};
ghost use Rattle.engine_choice.specs.Fits.{no_fits, added_in, fitted_in, choice_from};

use base::{lowest, single_of};
use rules::Rule;
use service::{Record, Settings};
pub use standing::Standing;

// A value for each rule: whether it fits a service, or the set of the services that it fits.
#[derive(Clone, Copy, Default)]
pub struct PerRule<T> {
    pub lose: T,
    pub abandon: T,
    pub settle: T,
    pub wake: T,
    pub release: T,
    pub begin: T,
    pub end: T,
    pub expire: T,
}

impl PerRule<u64> {
    pub fn none() -> PerRule<u64>
        ensures { result ≡ no_fits }
    {
        PerRule::default()
    }

    fn added(self, w: PerRule<bool>, s: usize) -> PerRule<u64>
        ensures { result ≡ added_in self w s }
    {
        PerRule {
            lose: self.lose | single_of(s, w.lose),
            abandon: self.abandon | single_of(s, w.abandon),
            settle: self.settle | single_of(s, w.settle),
            wake: self.wake | single_of(s, w.wake),
            release: self.release | single_of(s, w.release),
            begin: self.begin | single_of(s, w.begin),
            end: self.end | single_of(s, w.end),
            expire: self.expire | single_of(s, w.expire),
        }
    }

    // The sets with service s as well.
    // Two parameters: settings and record lie in two arrays of the host, and each rule takes of the two only what it asks for.
    pub fn fit(self, now: u64, v: Settings, r: Record, st: Standing, s: usize) -> PerRule<u64>
        ensures { result ≡ fitted_in self now v r st s }
    {
        self.added(st.which_fit(now, v, r, s), s)
    }
}

// The first rule with any service that it fits, in paper 01's order, and the lowest such service.
// A loop: lowest gives n for none, so find_map would need the same test in a closure and is no plainer.
pub fn choose(f: PerRule<u64>, n: usize) -> Option<(Rule, usize)>
    ensures { result ≡ choice_from f n }
{
    let tries = [
        (Rule::Lose, f.lose),
        (Rule::Abandon, f.abandon),
        (Rule::Settle, f.settle),
        (Rule::Wake, f.wake),
        (Rule::Release, f.release),
        (Rule::Begin, f.begin),
        (Rule::End, f.end),
        (Rule::Expire, f.expire),
    ];
    for (rule, set) in tries {
        let s = lowest(set, n);
        if s < n {
            return Some((rule, s));
        }
    }
    None
}
