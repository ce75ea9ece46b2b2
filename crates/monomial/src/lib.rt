// From polynomial/mod.rs: monomials and ratios as words in byte slices.
// Kind 1 is a monomial, kind 2 a ratio, whose powers are held with 32,768 added. Here and above they are slices, parts of an image or of a
// call list, as the interface of the index asks: what a function needs to know of one is a clause, and not in a type.
#![tactic(auto)]

pub mod ordered_ops;
pub mod sizes;
pub mod variables;

ghost use Rattle.std.specs.Prelude.{◌≡◌, cond, ◌+◌, ◌*◌, ◌<◌, ◌≤◌, length, take, drop, IfSome};
ghost use Rattle.std.specs.Option.{unwrap_or};
ghost use Rattle.words.specs.Words.{words, paste_w};
ghost use Rattle.monomial.specs.Monomial.{number, bias, Starts, first, is_var, front, lent, found, to_end, ended, find, pow};
ghost use Rattle.monomial.specs.Monomial.{some_words};
ghost use Rattle.monomial.specs.Operations as ops;

use ordered_ops::Op;

/// What a list of words is: a monomial, or a ratio, whose powers are held with 32,768 added.
#[derive(Clone, Copy, Debug, PartialEq, Eq)]
pub enum Kind {
    Monomial,
    Ratio,
}

impl Kind {
    /// The kind of the variables' words.
    pub fn number(self) -> u32
        ensures { result ≡ number self }
    {
        match self {
            Kind::Monomial => 1,
            Kind::Ratio => 2,
        }
    }

    /// What a word holds for the power 0: an offset, and no second numbering of the kinds.
    pub fn bias(self) -> u32
        ensures { result ≡ bias (number self) }
    {
        match self {
            Kind::Monomial => 0,
            Kind::Ratio => 32768,
        }
    }
}

/// What a monomial or ratio says of a variable. An absent one has power 0, so this is no Option, whose None says that nothing is known;
/// the interface of the index asks for this form.
#[derive(Clone, Copy, Debug, PartialEq, Eq)]
pub enum Power {
    Found(u32),
    Absent,
}

// Whether w is a variable's word of the kind, its id below the bound.
#[tactic(auto, unfolding(crate::specs::Monomial::is_var))]
pub fn is_variable(w: u32, kind: Kind, bound: u32) -> bool
    ensures { result ≡ is_var (number kind) bound w }
{
    let p = words::power(w);
    words::kind(w) == kind.number()
        && words::id(w) < bound
        && p > 0
        && p <= 32767 + kind.bias()
        && p != kind.bias()
}

// How many words the canonical monomial or ratio at word `at` has, its end word with them; none where there is no such.
pub fn canonical_words(s: &[u8], at: usize, kind: Kind, variables: u32) -> Option<usize>
    ensures { result ≡ some_words (front (number kind) variables 0 (drop at (words s.now))) }
{
    let mut bound = variables;
    let mut n: u32 = 0;
    for i in at..s.len() / 4 {
        let w = words::get(s, i);
        if words::is_end(w) {
            if words::payload(w) == n {
                return Some(n as usize + 1);
            }
            return None;
        }
        if !is_variable(w, kind, bound) {
            return None;
        }
        bound = words::id(w);
        n += 1;
    }
    None
}

// Whether s is exactly one canonical monomial or ratio.
pub fn is_canonical(s: &[u8], kind: Kind, variables: u32) -> bool
    ensures { result ≡ lent (number kind) variables s.now }
{
    match canonical_words(s, 0, kind, variables) {
        Some(n) => 4 * n == s.len(),
        None => false,
    }
}

// The n words of s from word `at` on; no bytes where n is none.
fn words_at(s: &[u8], at: usize, n: Option<usize>) -> &[u8]
    requires { IfSome n (λ n. 4 * (at + n) ≤ length s.now) }
    ensures { result.now ≡ take (4 * unwrap_or n 0) (drop (4 * at) s.now) }
{
    match n {
        Some(n) => &s[4 * at..4 * (at + n)],
        None => &s[0..0],
    }
}

// The part of s that is the canonical monomial or ratio at word `at`, from first variable word to end word; empty where none starts there.
pub fn canonical_at(s: &[u8], at: usize, kind: Kind, variables: u32) -> &[u8]
    ensures { result.now ≡ found (number kind) variables s.now at }
{
    words_at(s, at, canonical_words(s, at, kind, variables))
}

// `canonical_at` under the original's two names.
pub fn monomial_at(s: &[u8], at: usize, variables: u32) -> &[u8]
    ensures { result.now ≡ found 1 variables s.now at }
{
    canonical_at(s, at, Kind::Monomial, variables)
}

pub fn ratio_at(s: &[u8], at: usize, variables: u32) -> &[u8]
    ensures { result.now ≡ found 2 variables s.now at }
{
    canonical_at(s, at, Kind::Ratio, variables)
}

// How many words there are from word `at` up to the first end word, with it; none where no such word comes.
fn words_to_end(s: &[u8], at: usize) -> Option<usize>
    ensures { result ≡ some_words (to_end 0 (drop at (words s.now))) }
{
    for i in at..s.len() / 4 {
        if words::is_end(words::get(s, i)) {
            return Some(i - at + 1);
        }
    }
    None
}

// The part of s from word `at` up to the first end word: the monomial or ratio there, where it is known to be canonical.
pub fn known_at(s: &[u8], at: usize) -> &[u8]
    ensures { result.now ≡ ended s.now at }
{
    words_at(s, at, words_to_end(s, at))
}

// What m says of variable v. Ids fall, so the walk stops at the first that is not above v.
pub fn find_power(m: &[u8], kind: Kind, v: u32) -> Power
    requires id { v < 4096 }
    requires starts { Starts (number kind) 4096 (words m.now) }
    ensures { result ≡ find (number kind) (first (number kind) (words m.now)) v }
{
    let upper = 4096 * kind.number() + v;
    // Not over `variables_of`: it would ask each word whether it is the end too, and a split looks through all entries for each variable. One
    // test leaves the loop, so that a word passed costs no second one.
    for i in 0..m.len() / 4 {
        let w = words::get(m, i);
        let u = words::upper_half(w);
        if u <= upper {
            if u < upper {
                return Power::Absent;
            }
            return Power::Found(words::power(w));
        }
    }
    Power::Absent
}

// The power of variable v, absent being 0; in a ratio with 32,768 added.
pub fn power_of(m: &[u8], kind: Kind, v: u32) -> u32
    requires id { v < 4096 }
    requires starts { Starts (number kind) 4096 (words m.now) }
    ensures { result ≡ pow (number kind) (first (number kind) (words m.now)) v }
{
    let Power::Found(p) = find_power(m, kind, v) else {
        return kind.bias();
    };
    p
}

// Whether a divides b, each a part of some longer list. A word of b below that of a lacks its variable or has the lower power.
pub fn divides(a: &[u8], b: &[u8]) -> bool
    requires starts { Starts 1 4096 (words a.now) }
    requires starts_2 { Starts 1 4096 (words b.now) }
    ensures { result ≡ ops.divides (first 1 (words a.now)) (first 1 (words b.now)) }
{
    let mut i: usize = 0;
    let mut j: usize = 0;
    // A merge: whether a place moves on depends on the words at both, so no iterator gives the steps.
    loop {
        let x = words::get(a, i);
        if words::is_end(x) {
            return true;
        }
        let y = words::get(b, j);
        if y < x {
            return false;
        }
        i = ordered_ops::step(i, x, words::upper_half(y));
        j += 1;
    }
}

// Whether a and b are the same words. `==` on the slices would compare byte by byte, in four times the steps.
pub fn eq(a: &[u8], b: &[u8]) -> bool
    ensures { result ≡ ops.equal (words a.now) (words b.now) }
{
    let n = a.len() / 4;
    if n != b.len() / 4 {
        return false;
    }
    for i in 0..n {
        if words::get(a, i) != words::get(b, i) {
            return false;
        }
    }
    true
}

// The operations below are `ordered_ops::sum` under the original's names.
// Writes the greatest common divisor, and returns its length in words.
pub fn gcd(a: &[u8], b: &[u8], out: &mut [u8]) -> usize
    requires starts { Starts 1 4096 (words a.now) }
    requires starts_2 { Starts 1 4096 (words b.now) }
    requires b_in_bounds { 4 * length (ops.result_words Op.Gcd (first 1 (words a.now)) (first 1 (words b.now))) ≤ length out.old }
    ensures value { result ≡ length (ops.result_words Op.Gcd (first 1 (words a.now)) (first 1 (words b.now))) }
    ensures out_after { out.new ≡ paste_w out.old 0 (ops.result_words Op.Gcd (first 1 (words a.now)) (first 1 (words b.now))) }
{
    ordered_ops::sum(a, b, Op::Gcd, out)
}

// Writes the product, and returns its length in words. Its powers can be up to 65,534.
pub fn mul(a: &[u8], b: &[u8], out: &mut [u8]) -> usize
    requires starts { Starts 1 4096 (words a.now) }
    requires starts_2 { Starts 1 4096 (words b.now) }
    requires b_in_bounds { 4 * length (ops.result_words Op.Product (first 1 (words a.now)) (first 1 (words b.now))) ≤ length out.old }
    ensures value { result ≡ length (ops.result_words Op.Product (first 1 (words a.now)) (first 1 (words b.now))) }
    ensures out_after { out.new ≡ paste_w out.old 0 (ops.result_words Op.Product (first 1 (words a.now)) (first 1 (words b.now))) }
{
    ordered_ops::sum(a, b, Op::Product, out)
}

// Writes the ratio a / b with its signed powers, and returns its length in words.
pub fn fraction_division(a: &[u8], b: &[u8], out: &mut [u8]) -> usize
    requires starts { Starts 1 4096 (words a.now) }
    requires starts_2 { Starts 1 4096 (words b.now) }
    requires b_in_bounds { 4 * length (ops.result_words Op.Ratio (first 1 (words a.now)) (first 1 (words b.now))) ≤ length out.old }
    ensures value { result ≡ length (ops.result_words Op.Ratio (first 1 (words a.now)) (first 1 (words b.now))) }
    ensures out_after { out.new ≡ paste_w out.old 0 (ops.result_words Op.Ratio (first 1 (words a.now)) (first 1 (words b.now))) }
{
    ordered_ops::sum(a, b, Op::Ratio, out)
}

// Writes the quotient a / b where b divides a; else nothing.
#[tactic(auto, unfolding(crate::specs::Operations::divided))]
pub fn whole_division(a: &[u8], b: &[u8], out: &mut [u8]) -> Option<usize>
    requires starts { Starts 1 4096 (words a.now) }
    requires starts_2 { Starts 1 4096 (words b.now) }
    requires b_in_bounds { 4 * length (ops.result_words Op.Quotient (first 1 (words a.now)) (first 1 (words b.now))) ≤ length out.old }
    ensures value { result ≡ ops.divided (first 1 (words a.now)) (first 1 (words b.now)) }
    ensures out_after { out.new ≡ cond (ops.divides (first 1 (words b.now)) (first 1 (words a.now))) (paste_w out.old 0 (ops.result_words Op.Quotient (first 1 (words a.now)) (first 1 (words b.now)))) out.old }
{
    if divides(b, a) {
        Some(ordered_ops::sum(a, b, Op::Quotient, out))
    } else {
        None
    }
}
