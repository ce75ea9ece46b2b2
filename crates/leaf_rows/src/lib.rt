// The row of a leaf: whether it has the gcd of its entries and its mask, and whether they are within the bounds that the walk brought down.
#![tactic(auto)]

ghost use Rattle.std.specs.Prelude.{◌≡◌, true, ◌↔◌, ℕ, ◌+◌, ◌*◌, ◌<◌, ◌≤◌, length, get_or};
ghost use Rattle.words.specs.Words.{words};
ghost use Rattle.words.specs.Tables.{part};
ghost use Rattle.monomial.specs.Monomial.{Canonical, Starts, first, pow};
ghost use Rattle.index_image.specs.Layout.{slot, gcd_of};
ghost use Rattle.index_image.specs.Shape as shape;
ghost use Rattle.index_image.specs.Walk.{power};
ghost use Rattle.index_image.specs.Rows.{entries_from, NodeOk};
ghost use Rattle.leaf_rows.specs.Leaves.{Uppers, Inside, Bounded, LeafOk};

use index_image::image::ReadyImage;
use index_image::{fields, stored};
use std::ops::Range;

// Whether every power of the monomial at the front of a slice is below its bound. Absent variables have power 0, and no bound is 0.
fn powers_below(lm: &[u8], variables: usize, hi: &[u8]) -> bool
    requires variables_bound { variables ≤ 64 }
    requires starts { Starts 1 variables (words lm.now) }
    requires uppers { Uppers variables hi.now }
    ensures { (result ≡ true) ↔ ((v : ℕ) → v < variables → pow 1 (first 1 (words lm.now)) v < get_or (words hi.now) v 0) }
{
    // No `all`: that each id has a bound is known from the words before it.
    for w in monomial::variables::variables_of(lm) {
        if words::get(hi, words::id(w) as usize) <= words::power(w) {
            return false;
        }
    }
    true
}

// Whether entry e is within the bounds.
#[tactic(auto, unfolding(index_image::specs::Walk::power, index_image::specs::Walk::lm_in, index_image::specs::Rows::monomial_in), using(crate::proofs::Testing::entry_lent))]
fn entry_ok(image: &ReadyImage<'_>, hi: &[u8], labels: &Range<u64>, e: usize) -> bool
    requires uppers { Uppers image.now.shape.variables hi.now }
    requires e_lt_entries { e < image.now.shape.entries }
    ensures { (result ≡ true) ↔ Inside (words image.now.bytes.now) image.now.shape (words hi.now) labels.now.start labels.now.end e }
{
    let s = image.shape;
    let lm = stored::monomial_from(image.bytes, s, s.entry_at(e));
    powers_below(lm, s.variables, hi) && (s.kind == 0 || labels.contains(&image.label(e)))
}

// Whether the c entries from place lo on are within the bounds.
#[tactic(auto, using(crate::proofs::Testing::places_lent))]
fn entries_ok(image: &ReadyImage<'_>, hi: &[u8], labels: &Range<u64>, lo: usize, c: usize) -> bool
    requires uppers { Uppers image.now.shape.variables hi.now }
    requires c_bound { lo + c ≤ image.now.shape.entries }
    ensures { (result ≡ true) ↔ Bounded (words image.now.bytes.now) image.now.shape (words hi.now) labels.now.start labels.now.end (entries_from (words image.now.bytes.now) image.now.shape lo c) }
{
    let p = image.shape.permutation_at() + lo;
    // No `all`: what its closure reads would have to be known of every place before the first is read.
    for i in 0..c {
        let e = words::get(image.bytes, p + i) as usize;
        if !entry_ok(image, hi, labels, e) {
            return false;
        }
    }
    true
}

// Whether the gcd's slot in the row at word `at` has this one, and zeros behind it.
fn gcd_ok(image: &ReadyImage<'_>, at: usize, gcd: &[u8]) -> bool
    requires variables_in_bounds { 4 * (at + shape.node_width image.now.shape.variables) ≤ length image.now.bytes.now }
    requires canonical { Canonical 1 image.now.shape.variables (words gcd.now) }
    ensures { (result ≡ true) ↔ (part (words image.now.bytes.now) (shape.gcd_at at) (shape.slot_width image.now.shape.variables) ≡ slot image.now.shape.variables (words gcd.now)) }
{
    let s = image.shape;
    let n = gcd.len() / 4;
    let a = 4 * (at + fields::GCD);
    let b = a + 4 * n;
    monomial::eq(&image.bytes[a..b], gcd)
        && words::runs::is_blank(
            image.bytes,
            at + fields::GCD + n,
            s.variables + fields::SLOT - n,
        )
}

// Whether the row at word `at` has this gcd and its mask.
pub fn node_ok(image: &ReadyImage<'_>, at: usize, gcd: &[u8]) -> bool
    requires variables_in_bounds { 4 * (at + shape.node_width image.now.shape.variables) ≤ length image.now.bytes.now }
    requires canonical { Canonical 1 image.now.shape.variables (words gcd.now) }
    ensures { (result ≡ true) ↔ NodeOk (words image.now.bytes.now) image.now.shape at (words gcd.now) }
{
    let mask = image.div_map().map(gcd);
    words::get(image.bytes, at + fields::NODE_MASK) == mask && gcd_ok(image, at, gcd)
}

// Whether the row at word `at` has the gcd of the c entries from place lo on, and its mask.
fn leaf_gcd_ok(image: &ReadyImage<'_>, at: usize, lo: usize, c: usize) -> bool
    requires variables_in_bounds { 4 * (at + shape.node_width image.now.shape.variables) ≤ length image.now.bytes.now }
    requires c_bound { lo + c ≤ image.now.shape.entries }
    ensures { (result ≡ true) ↔ NodeOk (words image.now.bytes.now) image.now.shape at (gcd_of (power (words image.now.bytes.now) image.now.shape) (entries_from (words image.now.bytes.now) image.now.shape lo c)) }
{
    // room for the most variables that an index may have, since there is no heap
    let mut acc = [0u8; 260];
    let e = 4 * image.gcd_of(lo, c, &mut acc);
    node_ok(image, at, &acc[..e])
}

// Whether the row at word `at` is that of a leaf of the c entries from place lo on.
pub fn leaf_ok(
    image: &ReadyImage<'_>,
    hi: &[u8],
    labels: Range<u64>,
    at: usize,
    lo: usize,
    c: usize,
) -> bool
    requires uppers { Uppers image.now.shape.variables hi.now }
    requires variables_in_bounds { 4 * (at + shape.node_width image.now.shape.variables) ≤ length image.now.bytes.now }
    requires c_bound { lo + c ≤ image.now.shape.entries }
    ensures { (result ≡ true) ↔ LeafOk (words image.now.bytes.now) image.now.shape (words hi.now) labels.start labels.end at lo c }
{
    words::get(image.bytes, at + fields::KEY) == 0
        && words::get(image.bytes, at + fields::SKIP) == 0
        && leaf_gcd_ok(image, at, lo, c)
        && entries_ok(image, hi, &labels, lo, c)
}
