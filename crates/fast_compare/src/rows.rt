// Rows of a map at a word of its image: the index, the ratio and zeros in m + 1 words, the label.
ghost use Rattle.std.specs.Prelude.{◌≡◌, true, ◌↔◌, ℕ, ◌+◌, ◌*◌, ◌<◌, ◌≤◌, length, get_or};
ghost use Rattle.words.specs.Words.{words};
ghost use Rattle.monomial.specs.Monomial.{Starts, first};
ghost use Rattle.fast_compare.specs.Map.{value_of, cmp};
ghost use Rattle.fast_compare.specs.Layout.{TotalAt, ratio_words, HasRatio, value_at, RowOk, Rises};
ghost use Rattle.monomial_ordering.specs.Order.{TotalOf};

use monomial::Kind;
use monomial_ordering::Total;
use std::cmp::Ordering;

// The total of the ratio in the row at word `at`.
pub fn total_at(map: &[u8], at: usize) -> Total
    requires { HasRatio (words map.now) (at + 1) }
    ensures { TotalAt (words map.now) at result }
{
    let a = 4 * (at + 1);
    monomial_ordering::total_of(&map[a..], Kind::Ratio)
}

// The value of the row at word `at`, compared with another, whose ratio stands at the front of a slice. Both ratios come with their totals.
pub fn compare_at(map: &[u8], at: usize, s: Total, index: u32, ratio: &[u8], t: Total) -> Ordering
    requires has_ratio { HasRatio (words map.now) (at + 1) }
    requires total_at { TotalAt (words map.now) at s }
    requires starts { Starts 2 4096 (words ratio.now) }
    requires total_of { TotalOf 2 (first 2 (words ratio.now)) t }
    ensures { (m : ℕ) → (ratio_words (words map.now) m (at + 1) ≡ 0 → ⊥) → result ≡ cmp (value_at (words map.now) m at) (value_of index (first 2 (words ratio.now))) }
{
    let i = words::payload(words::get(map, at));
    match i.cmp(&index) {
        Ordering::Equal => {
            let a = 4 * (at + 1);
            monomial_ordering::ord_by_totals(&map[a..], s, ratio, t, Kind::Ratio)
        }
        by_index => by_index,
    }
}

// Whether the row at word a lies below the row at word b, in value and in label. Both ratios come with their totals.
pub fn rises(map: &[u8], variables: usize, a: usize, s: Total, b: usize, t: Total) -> bool
    requires variables_bound { variables ≤ 64 }
    requires row_ok { RowOk (words map.now) variables a }
    requires row_ok_2 { RowOk (words map.now) variables b }
    requires variables_in_bounds { (4 * (a + (variables + 3)) ≤ length map.now) × (4 * (b + (variables + 3)) ≤ length map.now) }
    requires total_at { TotalAt (words map.now) a s }
    requires total_at_2 { TotalAt (words map.now) b t }
    ensures { (result ≡ true) ↔ Rises (words map.now) variables a b }
{
    let i = words::payload(words::get(map, b));
    let x = 4 * (b + 1);
    let below = compare_at(map, a, s, i, &map[x..], t).is_lt();
    below && words::get(map, a + (variables + 2)) < words::get(map, b + (variables + 2))
}
