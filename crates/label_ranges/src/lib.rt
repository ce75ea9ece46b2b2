// The ratio or the index of a query, as a range of labels.
#![tactic(auto)]

ghost use Rattle.std.specs.Prelude.{◌≡◌, ltb, cond, ◌≤◌, ◌<◌, length, get_or};
ghost use Rattle.words.specs.Words.{words};
ghost use Rattle.monomial.specs.Monomial.{Canonical};
ghost use Rattle.fast_compare.specs.Map as map;
ghost use Rattle.fast_compare.specs.Layout as lay;
ghost use Rattle.index_theory.specs.State.{State};
ghost use Rattle.index_image.specs.Layout.{Is};
ghost use Rattle.label_ranges.specs.Ended.{Ends, From, Halved, index_of_rank, label_of_rank};

use fast_compare::ComparerMap;
use index_image::image::SoundImage;
use std::cmp::Ordering;

// Labels of larger ratios begin at `above`; labels of smaller ones end below `below`. Where there is none it is 2^32 and no
// Option: the ends are words of a query that labels are held against, and 2^32 lies above every label.
#[derive(Clone, Copy)]
pub struct LabelEnds {
    pub above: u64,
    pub below: u64,
}

// The label of the row with p values below its own; 2^32 where there is none.
fn label_at(labels: &ComparerMap<'_>, p: usize) -> u64
    ensures upper_bound { result ≤ 4294967296 }
    ensures value { (l : map.State) → lay.Is l labels.now.bytes.now → result ≡ label_of_rank l p }
{
    if p < labels.count() {
        u64::from(labels.label_at(p))
    } else {
        4294967296
    }
}

// Where the labels of larger and of smaller ratios than this one lie.
pub fn ends_in(labels: &ComparerMap<'_>, index: u32, ratio: &[u8]) -> LabelEnds
    requires { Canonical 2 4096 (words ratio.now) }
    ensures { (l : map.State) → lay.Is l labels.now.bytes.now → Ends l (map.value_of index (words ratio.now)) result.above result.below }
{
    match labels.search(index, ratio) {
        Ok(p) => {
            let l = label_at(labels, p);
            LabelEnds {
                above: l + 1,
                below: l,
            }
        }
        Err(p) => {
            let l = label_at(labels, p);
            LabelEnds { above: l, below: l }
        }
    }
}

// Less where the row with p values below its own has an index below this one, else Greater.
fn index_side(labels: &ComparerMap<'_>, p: usize, index: u32) -> Ordering
    requires { p < get_or (words labels.now.bytes.now) 3 0 }
    ensures { (l : map.State) → lay.Is l labels.now.bytes.now → result ≡ cond (ltb (index_of_rank l p) index) Ordering.Less Ordering.Greater }
{
    let row = labels.row_at(p);
    if labels.index_of(row) < index {
        Ordering::Less
    } else {
        Ordering::Greater
    }
}

// How many rows have an index below this one. No row answers Equal.
fn rows_below(labels: &ComparerMap<'_>, index: u32) -> usize
    ensures { (l : map.State) → lay.Is l labels.now.bytes.now → Halved l index result result }
{
    let n = labels.count();
    match fast_compare::halve(n, |p| index_side(labels, p, index)) {
        Ok(p) | Err(p) => p,
    }
}

// Where the labels of ratios begin whose index is not below this one; 2^32 where there is none.
pub fn labels_from(labels: &ComparerMap<'_>, index: u32) -> u64
    ensures upper_bound { result ≤ 4294967296 }
    ensures from { (l : map.State) → lay.Is l labels.now.bytes.now → From l index result }
{
    label_at(labels, rows_below(labels, index))
}

// The label map of the image of a ratio index.
fn labels_of<'a>(image: &SoundImage<'a>) -> ComparerMap<'a>
    requires { image.now.shape.kind ≡ 1 }
    ensures { (st : State) → Is st image.now.bytes.now → lay.Is st.labels result.bytes.now }
{
    ComparerMap {
        bytes: &image.bytes[image.shape.labels()],
    }
}

// The ends of a ratio in the label map of an image.
pub fn ends_of(image: &SoundImage<'_>, index: u32, ratio: &[u8]) -> LabelEnds
    requires kind_value { image.now.shape.kind ≡ 1 }
    requires canonical { Canonical 2 4096 (words ratio.now) }
    ensures { (st : State) → Is st image.now.bytes.now → Ends st.labels (map.value_of index (words ratio.now)) result.above result.below }
{
    ends_in(&labels_of(image), index, ratio)
}

// The labels from an index on in the label map of an image.
pub fn from_of(image: &SoundImage<'_>, index: u32) -> u64
    requires { image.now.shape.kind ≡ 1 }
    ensures { (st : State) → Is st image.now.bytes.now → From st.labels index result }
{
    labels_from(&labels_of(image), index)
}
