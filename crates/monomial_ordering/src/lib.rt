// From monomial_ordering.rs: the order on monomials and ratios.
#![tactic(auto)]

ghost use Rattle.std.specs.Prelude.{◌≡◌, ◌+◌, ◌≤◌, length};
ghost use Rattle.words.specs.Words.{words};
ghost use Rattle.monomial.specs.Monomial.{number, Starts, first, pow};
ghost use Rattle.monomial_ordering.specs.Order.{TotalOf, revlex, order};
ghost use Rattle.monomial_ordering.specs.Order.{differing};

use monomial::Kind;
use std::cmp::Ordering;

// The sum of a monomial's powers and its number of variables. In a ratio each of the 4,096 powers has 32,768 added, those of absent ones too.
#[derive(Clone, Copy)]
pub struct Total {
    pub sum: u32,
    pub variables: usize,
}

// The total of the monomial or ratio at the front of a slice.
pub fn total_of(s: &[u8], kind: Kind) -> Total
    requires starts { Starts (number kind) 4096 (words s.now) }
    ensures { TotalOf (number kind) (first (number kind) (words s.now)) result }
{
    let absent = kind.bias();
    let mut sum: u32 = 0;
    // Not over `variables_of`: it would test each word against the slice's end, and the count stays.
    let mut i: usize = 0;
    loop {
        let w = words::get(s, i);
        if words::is_end(w) {
            return Total {
                sum: sum + (4096 - i as u32) * absent,
                variables: i,
            };
        }
        sum += words::power(w);
        i += 1;
    }
}

// What two words that differ say where all variables of smaller ids have the same powers: the smaller power is the larger monomial.
#[tactic(auto, unfolding(crate::specs::Order::differing))]
fn differ(x: u32, y: u32, absent: u32) -> Ordering
    ensures { result ≡ differing x y absent }
{
    match words::upper_half(x).cmp(&words::upper_half(y)) {
        Ordering::Less => absent.cmp(&words::power(x)),
        Ordering::Equal => words::power(y).cmp(&words::power(x)),
        Ordering::Greater => words::power(y).cmp(&absent),
    }
}

// The reverse lexicographic order of two with i and j variables. Ids fall, so the first difference from the end is the one at the smallest id.
fn revlex(a: &[u8], i: usize, b: &[u8], j: usize, kind: Kind) -> Ordering
    requires starts { Starts (number kind) 4096 (words a.now) }
    requires starts_2 { Starts (number kind) 4096 (words b.now) }
    requires i_value { (i + 1 ≡ length (first (number kind) (words a.now))) × (j + 1 ≡ length (first (number kind) (words b.now))) }
    ensures { result ≡ revlex 4096 (pow (number kind) (first (number kind) (words a.now))) (pow (number kind) (first (number kind) (words b.now))) }
{
    let absent = kind.bias();
    for k in 0..i.min(j) {
        let x = words::get(a, i - k - 1);
        let y = words::get(b, j - k - 1);
        if x != y {
            return differ(x, y, absent);
        }
    }
    match i.cmp(&j) {
        Ordering::Less => words::power(words::get(b, j - i - 1)).cmp(&absent),
        Ordering::Equal => Ordering::Equal,
        Ordering::Greater => absent.cmp(&words::power(words::get(a, i - j - 1))),
    }
}

// Compares two monomials or two ratios whose totals are known: by these, then from their ends.
#[tactic(auto, unfolding(crate::specs::Order::order, crate::specs::Order::grevlex))]
pub fn ord_by_totals(a: &[u8], s: Total, b: &[u8], t: Total, kind: Kind) -> Ordering
    requires starts { Starts (number kind) 4096 (words a.now) }
    requires total_of { TotalOf (number kind) (first (number kind) (words a.now)) s }
    requires starts_2 { Starts (number kind) 4096 (words b.now) }
    requires total_of_2 { TotalOf (number kind) (first (number kind) (words b.now)) t }
    ensures { result ≡ order (number kind) (first (number kind) (words a.now)) (first (number kind) (words b.now)) }
{
    s.sum
        .cmp(&t.sum)
        .then_with(|| revlex(a, s.variables, b, t.variables, kind))
}

// Compares two monomials or two ratios.
pub fn ord(a: &[u8], b: &[u8], kind: Kind) -> Ordering
    requires starts { Starts (number kind) 4096 (words a.now) }
    requires starts_2 { Starts (number kind) 4096 (words b.now) }
    ensures { result ≡ order (number kind) (first (number kind) (words a.now)) (first (number kind) (words b.now)) }
{
    let s = total_of(a, kind);
    let t = total_of(b, kind);
    ord_by_totals(a, s, b, t, kind)
}
