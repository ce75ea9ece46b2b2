// Question 3 of a map: whether the bytes begin with the image of a valid one.
#![tactic(auto)]

ghost use Rattle.std.specs.Prelude.{◌≡◌, true, ◌↔◌, ℕ, suc, ◌+◌, ◌*◌, ◌<◌, ◌≤◌, length, get_or};
ghost use Rattle.words.specs.Words.{words};
ghost use Rattle.fast_compare.specs.Layout.{size, row_at, order_at, RowOk, Rises, TablesOk, HeadOk, Sound, SoundFor};

use fast_compare::rows;
use monomial::Kind;

// Whether the n words from word `at` on are numbers below n, as those of a permutation are.
pub fn numbers_ok(bytes: &[u8], at: usize, n: usize) -> bool
    requires { 4 * (at + n) ≤ length bytes.now }
    ensures { (result ≡ true) ↔ ((k : ℕ) → k < n → get_or (words bytes.now) (at + k) 0 < n) }
{
    for i in 0..n {
        if n <= words::get(bytes, at + i) as usize {
            return false;
        }
    }
    true
}

// A map by the numbers of its header, which are in range and which the bytes have room for. Its tables are to be judged.
#[derive(Clone, Copy)]
struct Tables<'a> {
    map: &'a [u8],
    variables: usize,
    capacity: usize,
    rows: usize,
    ghost range: { (variables ≤ 64) × ((capacity ≤ 4096) × (rows ≤ capacity)) },
    ghost room: { 4 * size variables capacity ≤ length map.now },
}

impl Tables<'_> {
    // The word that row i begins at; behind the last one the sorted order begins.
    fn row_at(&self, i: usize) -> usize
        requires { i ≤ self.now.capacity }
        ensures { result ≡ row_at self.now.variables i }
    {
        4 + i * (self.variables + 3)
    }

    // Whether the words of row i are those of an index, a ratio and zeros.
    fn row_ok(&self, i: usize) -> bool
        requires { i < self.now.rows }
        ensures { (result ≡ true) ↔ RowOk (words self.now.map.now) self.now.variables (row_at self.now.variables i) }
    {
        let m = self.variables;
        let at = self.row_at(i);
        words::kind(words::get(self.map, at)) == words::INDEX
            && match monomial::canonical_words(self.map, at + 1, Kind::Ratio, m as u32) {
                Some(n) => words::runs::is_blank(self.map, at + 1 + n, m + 1 - n),
                None => false,
            }
    }

    // Whether the rows are rows.
    fn rows_ok(&self) -> bool
        ensures { (result ≡ true) ↔ ((i : ℕ) → i < self.now.rows → RowOk (words self.now.map.now) self.now.variables (row_at self.now.variables i)) }
    {
        for i in 0..self.rows {
            if !self.row_ok(i) {
                return false;
            }
        }
        true
    }

    // Whether each row number of the sorted order has a greater value and label than the one before.
    fn rising_ok(&self) -> bool
        requires rows { (i : ℕ) → i < self.now.rows → RowOk (words self.now.map.now) self.now.variables (row_at self.now.variables i) }
        requires numbers { (k : ℕ) → k < self.now.rows → get_or (words self.now.map.now) (order_at self.now.variables self.now.capacity + k) 0 < self.now.rows }
        ensures { (result ≡ true) ↔ ((k : ℕ) → suc k < self.now.rows → Rises (words self.now.map.now) self.now.variables (row_at self.now.variables (get_or (words self.now.map.now) (order_at self.now.variables self.now.capacity + k) 0)) (row_at self.now.variables (get_or (words self.now.map.now) (order_at self.now.variables self.now.capacity + suc k) 0))) }
    {
        // There is no first number to begin with.
        if self.rows == 0 {
            return true;
        }
        let at = self.row_at(self.capacity);
        let mut a = self.row_at(words::get(self.map, at) as usize);
        let mut s = rows::total_at(self.map, a);
        for i in 1..self.rows {
            let b = self.row_at(words::get(self.map, at + i) as usize);
            let t = rows::total_at(self.map, b);
            if !rows::rises(self.map, self.variables, a, s, b, t) {
                return false;
            }
            a = b;
            s = t;
        }
        true
    }

    // Whether they hold a valid map. One comparison of neighbours in the sorted order decides the order of all.
    fn ok(&self) -> bool
        ensures { (result ≡ true) ↔ TablesOk (words self.now.map.now) self.now.variables self.now.capacity self.now.rows }
    {
        let n = self.rows;
        let unused = self.capacity - n;
        let order = self.row_at(self.capacity);
        self.rows_ok()
            && words::runs::is_blank(self.map, self.row_at(n), unused * (self.variables + 3))
            && numbers_ok(self.map, order, n)
            && self.rising_ok()
            && words::runs::is_blank(self.map, order + n, unused)
    }
}

// Whether the header is that of a map of these numbers.
fn header_ok(map: &[u8], variables: usize, capacity: usize) -> bool
    requires { 16 ≤ length map.now }
    ensures { (result ≡ true) ↔ ((get_or (words map.now) 0 0 ≡ 1) × ((get_or (words map.now) 1 0 ≡ variables) × ((get_or (words map.now) 2 0 ≡ capacity) × (get_or (words map.now) 3 0 ≤ capacity)))) }
{
    words::get(map, 0) == 1
        && words::get(map, 1) as usize == variables
        && words::get(map, 2) as usize == capacity
        && words::get(map, 3) as usize <= capacity
}

// Whether a map of these numbers is one, and the header says so.
#[tactic(auto, unfolding(monomial::specs::Sizes::sizes_fit, monomial::specs::Sizes::variables_fit))]
fn head_ok(map: &[u8], variables: usize, capacity: usize) -> bool
    ensures { (result ≡ true) ↔ HeadOk (words map.now) variables capacity (length map.now) }
{
    monomial::sizes::sizes_fit(variables, capacity)
        && fast_compare::length(variables, capacity) <= map.len()
        && header_ok(map, variables, capacity)
}

// Whether the bytes begin with a sound map of these variables and this capacity.
pub fn sound_for(map: &[u8], variables: usize, capacity: usize) -> bool
    ensures { (result ≡ true) ↔ SoundFor variables capacity map.now }
{
    head_ok(map, variables, capacity)
        && (Tables {
            map,
            variables,
            capacity,
            rows: words::get(map, 3) as usize,
        })
        .ok()
}

// Whether the bytes begin with a sound map.
pub fn sound(map: &[u8]) -> bool
    ensures { (result ≡ true) ↔ Sound map.now }
{
    map.len() >= 16
        && sound_for(
            map,
            words::get(map, 1) as usize,
            words::get(map, 2) as usize,
        )
}
