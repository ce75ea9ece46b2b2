// From divmask.rs: masks of monomials and the mask test.
// Maxima are lent as one word a variable. Cutoffs are never stored: how many of a variable's bits its power sets is one division.
#![tactic(auto)]

pub mod pairs;
pub mod tracker;

ghost use Rattle.std.specs.Prelude.{◌≡◌, cond, ◌+◌, ◌*◌, ◌<◌, ◌≤◌, min, ltb};
ghost use Rattle.words.specs.Words.{words};
ghost use Rattle.monomial.specs.Monomial.{Starts, first, pow};
ghost use Rattle.divmask.specs.Mask.{parts, mask, tested};
ghost use Rattle.divmask.specs.Tracker.{Maxima};

use monomial::variables::variables_of;

// What two masks say of divisibility. Not a bool: the name is the original's, and says that the test can only rule out.
#[derive(Clone, Copy)]
pub enum DivMaskTestResult {
    NotDivisible,
    Unsure,
}

// How many bits variable v has: `whole`, and one more for the first `extra` variables.
pub fn bits_of(whole: u32, extra: u32, v: u32) -> u32
    requires { whole ≤ 32 }
    ensures { result ≡ whole + cond (ltb v extra) 1 0 }
{
    if v < extra { whole + 1 } else { whole }
}

// How many bits the variables before v have.
pub fn first_bit(whole: u32, extra: u32, v: u32) -> u32
    requires { (whole ≤ 32) × (v ≤ 64) }
    ensures { result ≡ v * whole + min v extra }
{
    v * whole + v.min(extra)
}

// The bits that a power sets. Cutoffs rise, so these are the lowest ones, as many as cutoffs lie below the power.
// The lesser number is taken before the division, so that no branch waits for the quotient: it would often be mispredicted.
pub fn field(bits: u32, maximum: u32, power: u32) -> u64
    requires bits_bound { (bits ≤ 32) × ((1 ≤ maximum) × (maximum ≤ 32767)) }
    requires le_power { (1 ≤ power) × (power ≤ 32767) }
    ensures { result ≡ parts bits maximum power bits }
{
    let least = (power * (bits + 1) - 1).min(bits * maximum);
    (1u64 << (least / maximum)) - 1
}

// How the masks of monomials are made: by the maxima of their variables, one word each.
#[derive(Clone, Copy)]
pub struct DivMap<'a> {
    pub maxima: &'a [u8],
    pub variables: u32,
    pub ghost lent: { Maxima variables (words maxima.now) },
}

impl DivMap<'_> {
    // The mask of the monomial at the front of a slice.
    pub fn map(&self, monomial: &[u8]) -> u32
        requires { Starts 1 self.now.variables (words monomial.now) }
        ensures { result ≡ mask self.now.variables (words self.now.maxima.now) (pow 1 (first 1 (words monomial.now))) }
    {
        let whole = 32 / self.variables;
        let extra = 32 % self.variables;
        let mut mask: u64 = 0;
        for w in variables_of(monomial) {
            let v = words::id(w);
            let x = words::get(self.maxima, v as usize);
            let f = field(bits_of(whole, extra, v), x, words::power(w));
            mask += f << first_bit(whole, extra, v);
        }
        mask as u32
    }
}

// The mask test.
pub fn divides(a: u32, b: u32) -> DivMaskTestResult
    ensures { result ≡ tested a b }
{
    if a & b == a {
        DivMaskTestResult::Unsure
    } else {
        DivMaskTestResult::NotDivisible
    }
}
