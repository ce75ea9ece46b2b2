// From ordered_ops.rs: one walk over two products, ids falling.
ghost use Rattle.std.specs.Prelude.{◌≡◌, cond, ◌+◌, ◌*◌, ◌<◌, ◌≤◌, max, eqb, length};
ghost use Rattle.words.specs.Kinds.{upper_half, var_word};
ghost use Rattle.words.specs.Words.{words, put_w, paste_w};
ghost use Rattle.monomial.specs.Monomial.{number, bias, Starts, first};
ghost use Rattle.monomial.specs.Operations.{met, kind_of, result_words};
ghost use Rattle.monomial.specs.Walk.{power_at, past};

use crate::Kind;

// What is made of the powers where equal ids meet; an absent variable has power 0.
#[derive(Clone, Copy)]
pub enum Op {
    Gcd,
    Product,
    Quotient,
    Ratio,
}

fn kind_of(op: Op) -> Kind
    ensures { number result ≡ kind_of op }
{
    match op {
        Op::Gcd | Op::Product | Op::Quotient => Kind::Monomial,
        Op::Ratio => Kind::Ratio,
    }
}

// The power that x and y meet in.
fn meet(op: Op, x: u32, y: u32) -> u32
    requires { (x ≤ 32767) × (y ≤ 32767) }
    ensures { result ≡ met op x y }
{
    match op {
        Op::Gcd => x.min(y),
        Op::Product => x + y,
        Op::Quotient => x.saturating_sub(y),
        Op::Ratio => x + 32768 - y,
    }
}

// The larger of two words' upper halves, which hold kind and id; 0 where both are end words.
pub fn upper(x: u32, y: u32) -> u32
    ensures { result ≡ max (upper_half x) (upper_half y) }
{
    words::upper_half(x).max(words::upper_half(y))
}

// The power in w where its upper half is u, else that of an absent variable.
#[tactic(auto, unfolding(crate::specs::Walk::power_at))]
pub fn power_at(w: u32, u: u32, absent: u32) -> u32
    ensures { result ≡ power_at w u absent }
{
    if words::upper_half(w) == u {
        words::power(w)
    } else {
        absent
    }
}

// The place after i where w, at i, has the upper half u.
#[tactic(auto, unfolding(crate::specs::Walk::past))]
pub fn step(i: usize, w: u32, u: u32) -> usize
    requires { i < 4611686018427387904 }
    ensures { result ≡ past i w u }
{
    if words::upper_half(w) == u { i + 1 } else { i }
}

// Writes variable v to the power p as word n, and returns the next place: the same one for power 0, so that the next word goes over it.
// It writes in either case, since a test before the store costs more.
fn push(out: &mut [u8], n: usize, kind: Kind, v: u32, p: u32) -> usize
    requires fields { (v < 4096) × (p < 65536) }
    requires n_bound { (n ≤ 4096) × (4 * n + 4 ≤ length out.old) }
    ensures { (result ≡ cond (eqb p (bias (number kind))) n (n + 1)) × (out.new ≡ put_w out.old n (var_word (number kind) v p)) }
{
    words::put(out, n, words::var_word(kind.number(), v, p));
    if p == kind.bias() { n } else { n + 1 }
}

// Writes the end word of a monomial of n variables, and returns its length in words.
fn finish(out: &mut [u8], n: usize) -> usize
    requires { (n ≤ 4096) × (4 * n + 4 ≤ length out.old) }
    ensures { (result ≡ n + 1) × (out.new ≡ put_w out.old n n) }
{
    words::put(out, n, n as u32);
    n + 1
}

// Writes what a and b make, and returns its length in words.
pub fn sum(a: &[u8], b: &[u8], op: Op, out: &mut [u8]) -> usize
    requires starts { Starts 1 4096 (words a.now) }
    requires starts_2 { Starts 1 4096 (words b.now) }
    requires b_in_bounds { 4 * length (result_words op (first 1 (words a.now)) (first 1 (words b.now))) ≤ length out.old }
    ensures r_value { result ≡ length (result_words op (first 1 (words a.now)) (first 1 (words b.now))) }
    ensures out_after { out.new ≡ paste_w out.old 0 (result_words op (first 1 (words a.now)) (first 1 (words b.now))) }
{
    let kind = kind_of(op);
    let mut i: usize = 0;
    let mut j: usize = 0;
    let mut n: usize = 0;
    // A merge: whether a place moves on depends on the words at both, so no iterator gives the steps.
    loop {
        let x = words::get(a, i);
        let y = words::get(b, j);
        let u = upper(x, y);
        if u == 0 {
            return finish(out, n);
        }
        let p = meet(op, power_at(x, u, 0), power_at(y, u, 0));
        n = push(out, n, kind, words::upper_id(u), p);
        i = step(i, x, u);
        j = step(j, y, u);
    }
}
