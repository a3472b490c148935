// Which numbers a number reaches by links, and whether the links have a cycle. Row i of the rows is the set that i is linked to.
#![tactic(auto)]

ghost use Rattle.std.specs.Prelude.{◌≡◌, ◌&&◌, ◌<◌, ◌≤◌, leb, ltb, get_or, length};
ghost use Rattle.base.specs.Folds.{pick, some};
ghost use Rattle.base.specs.Sets.{has_bit};
ghost use Rattle.base.specs.Links.{through, reach, cyclic};
ghost use Rattle.base.proofs.Filled.{Filled};
ghost use Rattle.links.specs.Rows.{rows_as, most_rows};
ghost use Rattle.links.specs.Spreading.{wide};
ghost use Rattle.links.specs.Descent.{subset, grown, AllSafe};

use base::{has_bit, lowest_of, lowest_outside, single_of};
use service::MAX_SERVICES;

// The most rows.
pub const MAX_ROWS: usize = MAX_SERVICES;

fn joined(k: usize, a: u64, b: u64) -> u64
    ensures { result ≡ through k a b }
{
    if has_bit(a, k) { a | b } else { a }
}

// One round, in place: what is reached through k as well. The row of k stays as it is.
fn round(rows: &mut [u64], k: usize)
    requires { k < length rows.old }
    ensures { Filled 0 (λ j. through k (get_or rows.old j 0) (get_or rows.old k 0)) (length rows.old) rows.new (length rows.old) }
{
    let own = rows[k];
    for row in rows.iter_mut() {
        *row = joined(k, *row, own);
    }
}

// What each number reaches, in a round for each row.
fn reached(rows: &mut [u64])
    ensures { Filled 0 (reach (rows_as rows.old) (length rows.old)) (length rows.old) rows.new (length rows.old) }
{
    for k in 0..rows.len() {
        round(rows, k);
    }
}

// Some number is in its own row.
fn has_own(rows: &[u64]) -> bool
    ensures { result ≡ some (λ i. has_bit (rows_as rows.now i) i) (length rows.now) }
{
    (0..rows.len()).any(|i| has_bit(rows[i], i))
}

// Some number reaches itself; the rows are left as the rounds leave them.
fn is_cyclic(rows: &mut [u64]) -> bool
    ensures { result ≡ cyclic (rows_as rows.old) (length rows.old) }
{
    reached(rows);
    has_own(rows)
}

fn is_subset(a: u64, b: u64) -> bool
    ensures { result ≡ subset a b }
{
    (a & b) == a
}

// The set with i as well where q says that all that i is linked to, m, is in it.
fn grow(done: u64, m: u64, i: usize, q: bool) -> u64
    requires { (i < 64) × (q ≡ subset m done) }
    ensures { result ≡ grown done m i }
{
    done | single_of(i, q)
}

// Each number joins the set once all that it is linked to has: down where that has not, back up by the stack, and from its bottom on to
// the lowest number that has not joined. Where there is no cycle each number is gone down to at most once and joins once: 2n steps are
// enough, and fewer than n numbers are on the stack. An s from n on says that all have joined, or that a link leads past n.
fn all_join(rows: &[u64]) -> bool
    requires { length rows.now ≤ most_rows }
    ensures { AllSafe rows.now (length rows.now) result }
{
    let n = rows.len();
    let mut stack = [0u8; MAX_ROWS];
    let mut done: u64 = 0;
    let mut depth: usize = 0;
    let mut s: usize = 0;
    // A depth beside an array: the core allocates nothing (docs/HOST.md, "Reentrancy"), so the stack is no Vec.
    for _ in 0..2 * n {
        if n <= s {
            return n <= lowest_outside(done);
        }
        if n <= depth {
            return false;
        }
        let m = rows[s];
        let q = is_subset(m, done);
        done = grow(done, m, s, q);
        if q {
            if depth == 0 {
                s = lowest_outside(done);
            } else {
                depth -= 1;
                s = usize::from(stack[depth]);
            }
        } else {
            stack[depth] = s as u8;
            depth += 1;
            s = lowest_of(m & !done);
        }
    }
    false
}

// Whether there is a cycle: by descent, and only where that does not say that there is none, by rounds.
// A count beside an array: callers have a row for each service that there may be, and an n past them has an answer too.
pub fn has_cycle(n: usize, rows: &[u64; MAX_ROWS]) -> bool
    ensures { result ≡ (leb n most_rows && cyclic (rows_as rows.now) n) }
{
    if n <= MAX_ROWS && !all_join(&rows[..n]) {
        let mut all = *rows;
        is_cyclic(&mut all[..n])
    } else {
        false
    }
}

// The set with all that each number of it is linked to, in one pass.
fn widened(rows: &[u64], m: u64) -> u64
    ensures { result ≡ wide rows.now m (length rows.now) }
{
    (0..rows.len()).fold(m, |all, i| joined(i, all, rows[i]))
}

// What s reaches: its row, widened until a pass adds nothing. As numbers the sets only grow.
fn spread(rows: &[u64], s: usize) -> u64
    requires { s < length rows.now }
    ensures { result ≡ reach (rows_as rows.now) (length rows.now) s }
{
    let mut m = rows[s];
    let mut wider = widened(rows, m);
    // A while: the measure is how far the set is from what s reaches, no index counts up.
    while m < wider {
        m = wider;
        wider = widened(rows, m);
    }
    m
}

// What the number s reaches, or the empty set where there is no such row.
// A count beside an array: as `has_cycle` has them.
pub fn reach_of(n: usize, rows: &[u64; MAX_ROWS], s: usize) -> u64
    ensures { result ≡ pick (leb n most_rows && ltb s n) (reach (rows_as rows.now) n s) 0 }
{
    if n <= MAX_ROWS && s < n {
        spread(&rows[..n], s)
    } else {
        0
    }
}
