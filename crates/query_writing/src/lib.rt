// The words of a query, written. `kd_query::pose` says why they are a slice.
#![tactic(auto)]

pub mod limits;

ghost use Rattle.std.specs.Prelude.{◌≡◌, cond, ℕ, ◌+◌, ◌*◌, ◌/◌, ◌%◌, ◌^◌, ◌<◌, ◌≤◌, length, get_or, [], ◌∷◌, ◌++◌};
ghost use Rattle.words.specs.Words.{paste_w};
ghost use Rattle.index_image.specs.Shape as at;
ghost use Rattle.query_words.specs.Asked.{slot_at};
ghost use Rattle.query_writing.specs.Written.{mask_words, range_words, slot_words, place_words, shape_words};

use index_image::{Shape, fields};
use query_words as query;
use std::ops::Range;

// Writes words one behind the other from word `at` on.
fn put_all(q: &mut [u8], at: usize, xs: &[usize])
    requires in_bounds { 4 * (at + length xs.now) ≤ length q.old }
    requires small { (i : ℕ) → get_or xs.now i 0 < 4294967296 }
    ensures { q.new ≡ paste_w q.old at xs.now }
{
    for (i, &x) in xs.iter().enumerate() {
        words::put(q, at + i, x as u32);
    }
}

// Writes three numbers from word `at` on, each in two words, which hold it whole.
fn put_pairs(q: &mut [u8], at: usize, a: u64, b: u64, c: u64)
    requires { 4 * (at + 6) ≤ length q.old }
    ensures q_after { q.new ≡ paste_w q.old at (a % 4294967296 ∷ a / 4294967296 ∷ b % 4294967296 ∷ b / 4294967296 ∷ c % 4294967296 ∷ c / 4294967296 ∷ []) }
    ensures whole { (a < 2 ^ 64) × ((b < 2 ^ 64) × (c < 2 ^ 64)) }
{
    words::pairs::put(q, at, a);
    words::pairs::put(q, at + 2, b);
    words::pairs::put(q, at + 4, c);
}

// The mask for nodes: all bits are set where none is left out by mask.
fn node_mask(lm: bool, mask: u64) -> u64
    ensures { result ≡ cond lm mask 4294967295 }
{
    if lm { mask } else { 4294967295 }
}

// Writes the search's number, a mask with a short exponent vector in the upper half, and the mask for nodes.
pub fn put_masks(q: &mut [u8], search: usize, lm: bool, masks: u64)
    requires in_bounds { 368 ≤ length q.old }
    requires search_bound { search < 4294967296 }
    ensures { q.new ≡ paste_w q.old 66 (mask_words search lm (masks % 4294967296) (masks / 4294967296)) }
{
    let for_nodes = node_mask(lm, masks % 4294967296);
    put_pairs(q, query::SEARCH, search as u64, masks, for_nodes);
}

// Writes the range of labels and the floor: each is read back whole from its two words.
pub fn put_range(q: &mut [u8], labels: Range<u64>, floor: u64)
    requires { 368 ≤ length q.old }
    ensures q_after { q.new ≡ paste_w q.old 72 (range_words labels.start labels.end floor) }
    ensures whole { (labels.start < 2 ^ 64) × ((labels.end < 2 ^ 64) × (floor < 2 ^ 64)) }
{
    put_pairs(q, query::FROM, labels.start, labels.end, floor);
}

// Where the lm or the signature monomial of entry 0 stands.
#[tactic(auto, unfolding(query_words::specs::Asked::slot_at))]
fn slot_of(s: Shape, lm: bool) -> usize
    requires { at.InRange s }
    ensures { result ≡ slot_at s lm 0 }
{
    let entry = s.entry_at(0);
    if lm {
        entry
    } else {
        entry + (s.variables + fields::SIGN)
    }
}

// Writes where the monomial of entry 0 that is to divide stands, and its mask.
pub fn put_slot(q: &mut [u8], s: Shape, lm: bool)
    requires in_range { at.InRange s }
    requires in_bounds { 368 ≤ length q.old }
    ensures { q.new ≡ paste_w q.old 78 (slot_words s lm) }
{
    let slot = slot_of(s, lm);
    put_all(q, query::SLOT, &[slot, slot + (s.variables + fields::MASK)]);
}

// Writes the words of a query that follow from the shape, in the order of their places: where its tables stand, and its numbers.
pub fn lay(q: &mut [u8], s: Shape)
    requires in_range { at.InRange s }
    requires in_bounds { 368 ≤ length q.old }
    ensures { q.new ≡ paste_w q.old 80 (place_words s ++ shape_words s) }
{
    let m = s.variables;
    let numbers = [
        s.node_at(0),
        m + fields::NODE,
        s.permutation_at(),
        s.entry_width(),
        s.entry_at(0) + (2 * m + fields::ROW),
        m + fields::LABEL_ROW,
        s.labels_at() + (fields::LABELS + (m + fields::LABEL)),
        s.kind,
        m,
        s.capacity,
        s.entries,
        s.nodes,
    ];
    put_all(q, query::NODE, &numbers);
}
