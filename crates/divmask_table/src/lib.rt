// A table of the bits that small powers set, so that the masks of many monomials are made without divisions.
#![tactic(auto)]

ghost use Rattle.std.specs.Prelude.{◌≡◌, ◌+◌, ◌*◌, ◌/◌, ◌%◌, ◌<◌, ◌≤◌, length};
ghost use Rattle.words.specs.Words.{words};
ghost use Rattle.divmask.specs.Mask.{both};
ghost use Rattle.divmask_table.specs.Table.{Tabled, Judged};

use divmask::DivMap;
use monomial::Kind;

// Writes the bits of each variable's powers 1 to 16.
fn fill(map: &DivMap<'_>, table: &mut [u8])
    requires { length table.old ≡ 8192 }
    ensures table_len { length table.new ≡ 8192 }
    ensures tabled { Tabled map.now.variables (words map.now.maxima.now) (words table.new) 16 }
{
    for k in 0..16 * map.variables {
        let x = map.bits_at(k / 16, k % 16 + 1);
        words::pairs::put(table, 2 * k as usize, x);
    }
}

// Makes the table where it pays, for many monomials, and returns the highest power that it has.
pub fn prepare(map: &DivMap<'_>, monomials: usize, table: &mut [u8]) -> u32
    requires { length table.old ≡ 8192 }
    ensures table_len { length table.new ≡ 8192 }
    ensures tabled { Tabled map.now.variables (words map.now.maxima.now) (words table.new) result }
{
    if monomials < 64 {
        return 0;
    }
    fill(map, table);
    16
}

// A canonical monomial in a longer list: how many words it has, and its mask, with its short exponent vector in the upper half.
#[derive(Clone, Copy)]
pub struct Slot {
    pub words: usize,
    pub masks: u64,
}

// How the masks of many monomials are made: by a map, and a table of the bits that powers set in it, up to a limit.
#[derive(Clone, Copy)]
pub struct Masks<'a> {
    pub map: DivMap<'a>,
    pub table: &'a [u8],
    pub limit: u32,
    pub ghost room: { length table.now ≡ 8192 },
    pub ghost tabled: { Tabled map.variables (words map.maxima.now) (words table.now) limit },
}

impl Masks<'_> {
    // The bits that `DivMap::bits_at` gives, from the table where it has them.
    fn look_up(&self, v: u32, power: u32) -> u64
        requires { (v < self.now.map.variables) × ((1 ≤ power) × (power ≤ 32767)) }
        ensures { result ≡ both self.now.map.variables (words self.now.map.maxima.now) v power }
    {
        if self.limit < power {
            return self.map.bits_at(v, power);
        }
        words::pairs::get(self.table, 2 * (16 * v + (power - 1)) as usize)
    }

    // Judges the monomial at word `at` and makes its masks, in one pass; none where no canonical one stands there.
    // Where it turns out not to be canonical, the sum so far may have wrapped.
    pub fn judge(&self, s: &[u8], at: usize) -> Option<Slot>
        ensures { Judged self.now.map.variables (words self.now.map.maxima.now) (words s.now) at result }
    {
        let mut bound = self.map.variables;
        let mut masks: u64 = 0;
        for i in at..s.len() / 4 {
            let w = words::get(s, i);
            if words::is_end(w) {
                let n = i - at;
                if words::payload(w) as usize != n {
                    return None;
                }
                return Some(Slot {
                    words: n + 1,
                    masks,
                });
            }
            if !monomial::is_variable(w, Kind::Monomial, bound) {
                return None;
            }
            bound = words::id(w);
            let x = self.look_up(bound, words::power(w));
            masks = masks.wrapping_add(x);
        }
        None
    }
}
