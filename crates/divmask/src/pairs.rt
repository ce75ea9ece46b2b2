// A mask and a short exponent vector side by side, tested as one number of 64 bits: one branch rules an entry out by either.
ghost use Rattle.std.specs.Prelude.{◌≡◌, ◌&&◌, ◌+◌, ◌*◌, ◌/◌, ◌%◌, ◌<◌, ◌≤◌, max};
ghost use Rattle.words.specs.Words.{words};
ghost use Rattle.monomial.specs.Monomial.{Starts, first, pow};
ghost use Rattle.divmask.specs.Mask.{parts, mask, vector, both, within};

use crate::DivMap;
use monomial::variables::variables_of;

// Whether both halves of a are within those of b.
pub fn within(a: u64, b: u64) -> bool
    ensures { result ≡ (within (a % 4294967296) (b % 4294967296) && within (a / 4294967296) (b / 4294967296)) }
{
    a & b == a
}

// The bits that a power sets in the short exponent vector: as many as the power says, where there are so many.
pub fn short_field(bits: u32, power: u32) -> u64
    requires { bits ≤ 32 }
    ensures { result ≡ parts bits (max 1 bits) power bits }
{
    (1u64 << power.min(bits)) - 1
}

impl DivMap<'_> {
    // The bits that variable v sets in a mask by its power, and in the upper half those in the short exponent vector. Each variable has `whole`
    // bits and the first `extra` one more: the caller divides for them, once for all variables.
    fn bits_in(&self, whole: u32, extra: u32, v: u32, power: u32) -> u64
        requires shared { (whole ≡ 32 / self.now.variables) × (extra ≡ 32 % self.now.variables) }
        requires known { (v < self.now.variables) × ((1 ≤ power) × (power ≤ 32767)) }
        ensures { result ≡ both self.now.variables (words self.now.maxima.now) v power }
    {
        let x = words::get(self.maxima, v as usize);
        let b = crate::bits_of(whole, extra, v);
        let t = crate::first_bit(whole, extra, v);
        let mask = crate::field(b, x, power) << t;
        let vector = short_field(b, power) << t;
        mask + 4294967296 * vector
    }

    // The bits that one variable sets.
    pub fn bits_at(&self, v: u32, power: u32) -> u64
        requires { (v < self.now.variables) × ((1 ≤ power) × (power ≤ 32767)) }
        ensures { result ≡ both self.now.variables (words self.now.maxima.now) v power }
    {
        self.bits_in(32 / self.variables, 32 % self.variables, v, power)
    }

    // The mask of the monomial at the front of a slice, and in the upper half its short exponent vector.
    pub fn map_pair(&self, monomial: &[u8]) -> u64
        requires { Starts 1 self.now.variables (words monomial.now) }
        ensures { result ≡ mask self.now.variables (words self.now.maxima.now) (pow 1 (first 1 (words monomial.now))) + 4294967296 * vector self.now.variables (pow 1 (first 1 (words monomial.now))) }
    {
        let whole = 32 / self.variables;
        let extra = 32 % self.variables;
        let mut masks: u64 = 0;
        for w in variables_of(monomial) {
            masks += self.bits_in(whole, extra, words::id(w), words::power(w));
        }
        masks
    }
}
