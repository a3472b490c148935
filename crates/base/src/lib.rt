// Sets of numbers as bits of a number. The definitions stand in specs/, the laws in proofs/.
#![tactic(auto)]

ghost use Rattle.std.specs.Prelude.{◌≡◌, ◌&&◌, not, ltb};
ghost use Rattle.base.specs.Folds.{first};
ghost use Rattle.base.specs.Sets.{has_bit, within, single, kept, overlap};

// The number i is in the set.
#[tactic(auto, unfolding(crate::specs::Sets::has_bit), using(crate::proofs::Words::high_bit))]
pub fn has_bit(m: u64, i: usize) -> bool
    ensures { result ≡ has_bit m i }
{
    i < 64 && (m >> i) % 2 == 1
}

// The set has no number from n on.
#[tactic(auto, unfolding(crate::specs::Sets::within), using(crate::proofs::Words::high_within))]
pub fn is_within(n: usize, m: u64) -> bool
    ensures { result ≡ within n m }
{
    64 <= n || (m >> n) == 0
}

// The set of i alone where b holds, and else the empty one. A number from 64 on has no place in a set.
pub fn single_of(i: usize, b: bool) -> u64
    ensures { result ≡ single i (ltb i 64 && b) }
{
    if i < 64 {
        return if b { 1 << i } else { 0 };
    }
    0
}

// The set m where b holds, and else the empty one.
pub fn kept_if(b: bool, m: u64) -> u64
    ensures { result ≡ kept b m }
{
    if b { m } else { 0 }
}

// The two sets have a number in common.
#[tactic(auto, unfolding(crate::specs::Sets::overlap))]
pub fn overlaps(a: u64, b: u64) -> bool
    ensures { result ≡ overlap a b }
{
    (a & b) != 0
}

// The lowest number in the set, or 64 where there is none.
// A number: `first` of the definitions has the bound itself for none, and that 64 is past every place is all that a caller asks.
pub fn lowest_of(m: u64) -> usize
    ensures { result ≡ first (has_bit m) 64 }
{
    u64::trailing_zeros(m) as usize
}

// The lowest number that is not in the set, or 64 where all below 64 are.
pub fn lowest_outside(m: u64) -> usize
    ensures { result ≡ first (λ i. not (has_bit m i)) 64 }
{
    lowest_of(!m)
}

// The lowest number below n in the set, or n where there is none: n joins the set, if it has a place in it.
// A number: `first` of the definitions has the bound itself for none, and the choice of a rule is defined by it (choice_from).
pub fn lowest(m: u64, n: usize) -> usize
    ensures { result ≡ first (has_bit m) n }
{
    if m == 0 {
        return n;
    }
    let s = lowest_of(m | single_of(n, true));
    if s < 64 { s } else { n }
}
