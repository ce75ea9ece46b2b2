// From the parts of a call to the words of a query, which `kd_tree::find` reads.
#![tactic(auto)]

ghost use Rattle.std.specs.Prelude.{◌≡◌, ◌+◌, ◌*◌, ◌<◌, ◌≤◌, length};
ghost use Rattle.words.specs.Words.{words};
ghost use Rattle.monomial.specs.Monomial.{Canonical, pow};
ghost use Rattle.divmask.specs.Mask.{mask, vector};
ghost use Rattle.divmask.specs.Tracker.{Maxima};
ghost use Rattle.fast_compare.specs.Map.{value_of};
ghost use Rattle.index_theory.specs.Entries.{quotient_of};
ghost use Rattle.index_theory.specs.State.{State};
ghost use Rattle.index_theory.specs.Searches.{containment, reducing, high, low, singular};
ghost use Rattle.index_image.specs.Layout.{Is};
ghost use Rattle.index_image.specs.Shape as at;
ghost use Rattle.index_image.specs.Walk.{map_maxima};
ghost use Rattle.query_words.specs.Asked.{search_number};
ghost use Rattle.label_ranges.specs.Ended.{Ends};
ghost use Rattle.kd_query.specs.Posed.{lm_divides, Poses, PosedFor};

use index_image::image::SoundImage;
use label_ranges::LabelEnds;
use query_words as query;
use query_words::Search;
use std::ops::Range;

// Whether lms are to divide, or else signature monomials.
#[tactic(auto, unfolding(crate::specs::Posed::lm_divides))]
fn by_lm(search: Search) -> bool
    ensures { result ≡ lm_divides search }
{
    matches!(search, Search::Contained | Search::Reducer | Search::High)
}

// Writes the words of a query: what is searched for, the monomial m to be divided, and the range of labels that count.
// A reducer's label below `floor` is a regular one's. The words stay a slice, here as in `query_writing`: a struct that held a `&mut` slice and
// knew its room would owe a clause in each function too, that it keeps the same slice.
pub fn pose(
    image: &SoundImage<'_>,
    q: &mut [u8],
    m: &[u8],
    search: Search,
    labels: Range<u64>,
    floor: u64,
)
    requires in_bounds { 368 ≤ length q.old }
    requires canonical { Canonical 1 image.now.shape.variables (words m.now) }
    ensures { Poses image.now.bytes.now m.now (search_number search) labels.start labels.end floor (words q.new) }
{
    let s = image.shape;
    let lm = by_lm(search);
    query_writing::limits::limit(q, s, lm, m);
    let masks = image.image().div_map().map_pair(m);
    query_writing::put_masks(q, query::number(search), lm, masks);
    query_writing::put_range(q, labels, floor);
    query_writing::put_slot(q, s, lm);
    query_writing::lay(q, s);
}

// The five queries stand apart, since each is a question with values and a contract of its own: one function of an enum would state all five by
// cases.

// The query of call 1: some monomial divides m.
pub fn contained(image: &SoundImage<'_>, q: &mut [u8], m: &[u8])
    requires kind_value { image.now.shape.kind ≡ 0 }
    requires in_bounds { 368 ≤ length q.old }
    requires canonical { Canonical 1 image.now.shape.variables (words m.now) }
    ensures { PosedFor image.now.bytes.now m.now (containment (words m.now)) (words q.new) }
{
    pose(image, q, m, Search::Contained, 0..0, 0);
}

// The query of call 3: an lm divides m, and its ratio is not above this one.
pub fn reducer(image: &SoundImage<'_>, q: &mut [u8], index: u32, ratio: &[u8], m: &[u8])
    requires kind_value { image.now.shape.kind ≡ 1 }
    requires in_bounds { 368 ≤ length q.old }
    requires canonical { Canonical 2 4096 (words ratio.now) }
    requires canonical_2 { Canonical 1 image.now.shape.variables (words m.now) }
    ensures { PosedFor image.now.bytes.now m.now (reducing (value_of index (words ratio.now)) (words m.now)) (words q.new) }
{
    let e = label_ranges::ends_of(image, index, ratio);
    pose(image, q, m, Search::Reducer, 0..e.above, e.below);
}

// The query of call 4: an lm divides m, and its ratio is above this one.
pub fn high(image: &SoundImage<'_>, q: &mut [u8], index: u32, ratio: &[u8], m: &[u8])
    requires kind_value { image.now.shape.kind ≡ 1 }
    requires in_bounds { 368 ≤ length q.old }
    requires canonical { Canonical 2 4096 (words ratio.now) }
    requires canonical_2 { Canonical 1 image.now.shape.variables (words m.now) }
    ensures { PosedFor image.now.bytes.now m.now (high (value_of index (words ratio.now)) (words m.now)) (words q.new) }
{
    let e = label_ranges::ends_of(image, index, ratio);
    pose(image, q, m, Search::High, e.above..4294967296, 0);
}

// The query of call 5: a signature monomial of this index divides m.
pub fn low(image: &SoundImage<'_>, q: &mut [u8], index: u32, m: &[u8])
    requires kind_value { image.now.shape.kind ≡ 1 }
    requires in_bounds { 368 ≤ length q.old }
    requires index_bound { index < 268435456 }
    requires canonical { Canonical 1 image.now.shape.variables (words m.now) }
    ensures { PosedFor image.now.bytes.now m.now (low index (words m.now)) (words q.new) }
{
    let from = label_ranges::from_of(image, index);
    let to = label_ranges::from_of(image, index + 1);
    pose(image, q, m, Search::Low, from..to, 0);
}

// The ends of the ratio of m and lm, which is made here, in fixed memory: nothing here is on the heap, and a ratio has at most 65 words.
fn ends_of_quotient(image: &SoundImage<'_>, index: u32, m: &[u8], lm: &[u8]) -> LabelEnds
    requires kind_value { image.now.shape.kind ≡ 1 }
    requires canonical { Canonical 1 image.now.shape.variables (words m.now) }
    requires canonical_2 { Canonical 1 image.now.shape.variables (words lm.now) }
    ensures { (st : State) → Is st image.now.bytes.now → Ends st.labels (quotient_of index (words m.now) (words lm.now)) result.above result.below }
{
    let mut scratch = [0u8; 260];
    let n = monomial::fraction_division(m, lm, &mut scratch);
    let e = 4 * n;
    label_ranges::ends_of(image, index, &scratch[..e])
}

// The query of call 6: a signature monomial of this index divides m, and its ratio is above that of m and lm.
pub fn singular(image: &SoundImage<'_>, q: &mut [u8], index: u32, m: &[u8], lm: &[u8])
    requires kind_value { image.now.shape.kind ≡ 1 }
    requires in_bounds { 368 ≤ length q.old }
    requires index_bound { index < 268435456 }
    requires canonical { Canonical 1 image.now.shape.variables (words m.now) }
    requires canonical_2 { Canonical 1 image.now.shape.variables (words lm.now) }
    ensures { PosedFor image.now.bytes.now m.now (singular index (words m.now) (words lm.now)) (words q.new) }
{
    let ends = ends_of_quotient(image, index, m, lm);
    let next = label_ranges::from_of(image, index + 1);
    pose(image, q, m, Search::Singular, ends.above..next, 0);
}
