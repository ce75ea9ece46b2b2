// From fast_compare.rs: the label map, in words of a lent image. docs/LAYOUT.md has the layout.
#![tactic(auto)]

pub mod rows;

ghost use Rattle.std.specs.Prelude.{◌≡◌, ℕ, ◌+◌, ◌*◌, ◌<◌, ◌≤◌, length, get_or};
ghost use Rattle.words.specs.Words.{words, paste_w};
ghost use Rattle.monomial.specs.Monomial.{Canonical};
ghost use Rattle.monomial.specs.Sizes.{Sizes};
ghost use Rattle.monomial_ordering.specs.Order.{TotalOf};
ghost use Rattle.fast_compare.specs.Labels.{sorted};
ghost use Rattle.fast_compare.specs.Map as Map;
ghost use Rattle.fast_compare.specs.Map.{State, value_of, value, cmp, place, refusal};
ghost use Rattle.fast_compare.specs.Layout.{size, encode, Is, Sound};
ghost use Rattle.fast_compare.specs.Halving.{Halved};

use monomial::Kind;
use monomial_ordering::Total;
use refusals::Refusal;
use std::cmp::Ordering;

// The label of a value, and whether the map had it before.
#[derive(Clone, Copy)]
pub enum Comparer {
    Known(u32),
    New(u32),
}

// Why a new value gets no label: the map has no row for it, or no label lies free between its neighbours'.
#[derive(Clone, Copy)]
pub enum Unlabelled {
    Full,
    NoLabel,
}

impl From<Unlabelled> for Refusal {
    fn from(u: Unlabelled) -> Refusal
        ensures { result ≡ refusal u }
    {
        match u {
            Unlabelled::Full => Refusal::Full,
            Unlabelled::NoLabel => Refusal::NoLabel,
        }
    }
}

// The length of a map in bytes.
pub fn length(variables: usize, capacity: usize) -> usize
    requires { (variables ≤ 64) × (capacity ≤ 4096) }
    ensures { result ≡ 4 * size variables capacity }
{
    4 * (4 + capacity * (variables + 3) + capacity)
}

// Halves 0..n by the order of its numbers, which rises, up to one that is Equal, or to where one would stand. A loop by hand: no index runs
// through the range, it closes in from both ends.
pub fn halve<F: Fn(usize) -> Ordering>(n: usize, order: F) -> Result<usize, usize>
    requires { (p : ℕ) → p < n → F.pre order p }
    ensures { Halved (F.post order) n result }
{
    let mut lo: usize = 0;
    let mut hi = n;
    while lo < hi {
        let mid = lo + (hi - lo) / 2;
        match order(mid) {
            Ordering::Less => {
                lo = mid + 1;
            }
            Ordering::Equal => {
                return Ok(mid);
            }
            Ordering::Greater => {
                hi = mid;
            }
        }
    }
    Err(lo)
}

// The bytes of a sound map, which is only read.
#[derive(Clone, Copy)]
pub struct ComparerMap<'a> {
    pub bytes: &'a [u8],
    pub ghost sound: { ∥ Sound bytes.now ∥₁ },
}

impl<'a> ComparerMap<'a> {
    // The number of rows of a sound map.
    pub fn count(&self) -> usize
        ensures value { result ≡ get_or (words self.now.bytes.now) 3 0 }
        ensures value_2 { (st : State) → Is st self.now.bytes.now → result ≡ length st.rows }
    {
        words::get(self.bytes, 3) as usize
    }

    // The number of the row with `position` values below its own.
    pub fn row_at(&self, position: usize) -> usize
        requires position_bound { position < get_or (words self.now.bytes.now) 3 0 }
        ensures { (st : State) → Is st self.now.bytes.now → (result < length st.rows) × (result ≡ get_or (sorted cmp (value st.rows) (length st.rows)) position 0) }
    {
        let variables = words::get(self.bytes, 1) as usize;
        let capacity = words::get(self.bytes, 2) as usize;
        words::get(self.bytes, 4 + capacity * (variables + 3) + position) as usize
    }

    // The label of a row.
    pub fn label(&self, row: usize) -> u32
        requires row_bound { row < get_or (words self.now.bytes.now) 3 0 }
        ensures { (st : State) → Is st self.now.bytes.now → result ≡ Map.label st.rows row }
    {
        let variables = words::get(self.bytes, 1) as usize;
        words::get(self.bytes, 4 + row * (variables + 3) + (variables + 2))
    }

    // The label of the row with `position` values below its own.
    pub fn label_at(&self, position: usize) -> u32
        requires position_bound { position < get_or (words self.now.bytes.now) 3 0 }
        ensures { (st : State) → Is st self.now.bytes.now → result ≡ Map.label st.rows (get_or (sorted cmp (value st.rows) (length st.rows)) position 0) }
    {
        let row = self.row_at(position);
        self.label(row)
    }

    // The signature index of a row.
    pub fn index_of(&self, row: usize) -> u32
        requires row_bound { row < get_or (words self.now.bytes.now) 3 0 }
        ensures { (st : State) → Is st self.now.bytes.now → result ≡ (value st.rows row).index }
    {
        let variables = words::get(self.bytes, 1) as usize;
        words::payload(words::get(self.bytes, 4 + row * (variables + 3)))
    }

    // The value of a row, compared with another, whose ratio has the total t. Rows of another index need no total.
    pub fn compare(&self, row: usize, index: u32, ratio: &[u8], t: Total) -> Ordering
        requires row_bound { row < get_or (words self.now.bytes.now) 3 0 }
        requires canonical { Canonical 2 4096 (words ratio.now) }
        requires total_of { TotalOf 2 (words ratio.now) t }
        ensures { (st : State) → Is st self.now.bytes.now → result ≡ cmp (value st.rows row) (value_of index (words ratio.now)) }
    {
        let variables = words::get(self.bytes, 1) as usize;
        let at = 4 + row * (variables + 3);
        let i = words::payload(words::get(self.bytes, at));
        if i != index {
            return i.cmp(&index);
        }
        let s = rows::total_at(self.bytes, at);
        rows::compare_at(self.bytes, at, s, index, ratio, t)
    }

    // The same for the row with `position` values below its own.
    fn compare_position(&self, position: usize, index: u32, ratio: &[u8], t: Total) -> Ordering
        requires position_bound { position < get_or (words self.now.bytes.now) 3 0 }
        requires canonical { Canonical 2 4096 (words ratio.now) }
        requires total_of { TotalOf 2 (words ratio.now) t }
        ensures { (st : State) → Is st self.now.bytes.now → result ≡ cmp (value st.rows (get_or (sorted cmp (value st.rows) (length st.rows)) position 0)) (value_of index (words ratio.now)) }
    {
        let row = self.row_at(position);
        self.compare(row, index, ratio, t)
    }

    // The place of a value: how many values lie below it; Ok where it is known.
    pub fn search(&self, index: u32, ratio: &[u8]) -> Result<usize, usize>
        requires canonical { Canonical 2 4096 (words ratio.now) }
        ensures { (st : State) → Is st self.now.bytes.now → result ≡ place st.rows (value_of index (words ratio.now)) }
    {
        let t = monomial_ordering::total_of(ratio, Kind::Ratio);
        halve(self.count(), |p| self.compare_position(p, index, ratio, t))
    }
}

// Writes an empty map: every byte of its length.
pub fn open(map: &mut [u8], variables: usize, capacity: usize)
    requires sizes { Sizes variables capacity }
    requires capacity_in_bounds { 4 * size variables capacity ≤ length map.old }
    ensures { map.new ≡ paste_w map.old 0 (encode (Map.empty variables capacity)) }
{
    words::put(map, 0, 1);
    words::put(map, 1, variables as u32);
    words::put(map, 2, capacity as u32);
    words::runs::clear(map, 3, 1 + capacity * (variables + 3) + capacity);
}
