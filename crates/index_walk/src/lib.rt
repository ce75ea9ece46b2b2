// The walk over the node rows: whether one tree stands there, in preorder, with its entries in the permutation.
// Upper bounds of powers go down in `hi`, one word a variable, and the range of labels in two numbers; so each word is read a few times only.
#![tactic(auto)]

ghost use Rattle.std.specs.Prelude.{◌≡◌, true, ◌↔◌, ◌+◌, ◌*◌, ◌<◌, ◌≤◌, length, get_or};
ghost use Rattle.words.specs.Words.{words, put_w};
ghost use Rattle.index_image.specs.Shape as shape;
ghost use Rattle.leaf_rows.specs.Leaves.{Uppers};
ghost use Rattle.branch_rows.specs.Branches.{KeyIn, Slots, BranchOk};
ghost use Rattle.index_walk.specs.Walked.{Walked};

use index_image::fields;
use index_image::image::ReadyImage;
use std::ops::Range;

// The number of entries that row k has.
#[tactic(auto, using(crate::proofs::Rooms::node_lent))]
fn count_at(image: &ReadyImage<'_>, k: usize) -> usize
    requires { k < image.now.shape.nodes }
    ensures { result ≡ get_or (words image.now.bytes.now) (shape.count_at (shape.node_at image.now.shape k)) 0 }
{
    words::get(image.bytes, image.shape.node_at(k) + fields::COUNT) as usize
}

// The number of entries of the row behind row k, which is found from row k's own word `at`.
#[tactic(auto, using(crate::proofs::Rooms::behind_lent))]
fn count_behind(image: &ReadyImage<'_>, k: usize, at: usize) -> usize
    requires { (k + 1 < image.now.shape.nodes) × (at ≡ shape.node_at image.now.shape k) }
    ensures { result ≡ get_or (words image.now.bytes.now) (shape.count_at (shape.node_at image.now.shape (k + 1))) 0 }
{
    let width = image.shape.variables + fields::NODE;
    words::get(image.bytes, at + (width + fields::COUNT)) as usize
}

// Whether row k is that of a branch over the rows k + 1 and k + 1 + t.
#[tactic(auto, using(crate::proofs::Rooms::node_lent))]
fn over_ok(image: &ReadyImage<'_>, k: usize, t: usize) -> bool
    requires t_bound { k + 1 + t < image.now.shape.nodes }
    requires key_in { KeyIn (words image.now.bytes.now) image.now.shape (shape.node_at image.now.shape k) }
    requires slots { Slots (words image.now.bytes.now) image.now.shape.variables (shape.node_at image.now.shape (k + 1)) (shape.node_at image.now.shape (k + 1 + t)) }
    ensures { (result ≡ true) ↔ BranchOk (words image.now.bytes.now) image.now.shape (shape.node_at image.now.shape k) (shape.node_at image.now.shape (k + 1)) (shape.node_at image.now.shape (k + 1 + t)) t }
{
    let s = image.shape;
    branch_rows::branch_ok(
        image,
        s.node_at(k),
        s.node_at(k + 1),
        s.node_at(k + 1 + t),
        t,
    )
}

// Writes x as word i, and returns what stood there.
fn exchange(hi: &mut [u8], i: usize, x: u32) -> u32
    requires { 4 * i + 4 ≤ length hi.old }
    ensures value { result ≡ get_or (words hi.old) i 0 }
    ensures hi_after { hi.new ≡ put_w hi.old i x }
{
    let old = words::get(hi, i);
    words::put(hi, i, x);
    old
}

// The number of rows of the tree at row k, of at most `avail` entries, which start at place lo of the permutation,
// with powers below `hi` and labels among `labels`; none where there is no such tree.
// Each side is allowed fewer entries than its branch. That is what its proof of termination counts, so no call is deeper than the entries.
// Its tests are guards with an early return each: what the next one reads is there only behind the last.
#[tactic(auto, using(crate::proofs::Rooms::node_lent))]
pub fn walk(
    image: &ReadyImage<'_>,
    hi: &mut [u8],
    labels: Range<u64>,
    k: usize,
    lo: usize,
    avail: usize,
) -> Option<usize>
    requires uppers { Uppers image.now.shape.variables hi.old }
    requires k_le_nodes { (k ≤ image.now.shape.nodes) × (lo + avail ≤ image.now.shape.entries) }
    ensures walked { Walked (words image.now.bytes.now) image.now.shape (words hi.old) labels.start labels.end k lo avail result }
    ensures hi_unchanged { hi.new ≡ hi.old }
{
    if image.shape.nodes <= k {
        return None;
    }
    let at = image.shape.node_at(k);
    let c = words::get(image.bytes, at + fields::COUNT) as usize;
    if avail < c {
        return None;
    }
    if words::get(image.bytes, at) == 0 {
        if leaf_rows::leaf_ok(image, hi, labels, at, lo, c) {
            return Some(1);
        }
        return None;
    }
    if !branch_rows::key_ok(image.bytes, image.shape, at) {
        return None;
    }
    let b = branch_rows::sides(image, hi, labels, at);
    let old = exchange(hi, b.variable, b.power);
    let less = walk(image, hi, b.less.start..b.less.end, k + 1, lo, c - 1);
    words::put(hi, b.variable, old);
    let t = less?;
    let ca = count_behind(image, k, at);
    if ca == 0 {
        return None;
    }
    // read again, so that it need not be kept while the less side is walked
    let all = count_at(image, k);
    let w = walk(
        image,
        hi,
        b.other.start..b.other.end,
        k + 1 + t,
        lo + ca,
        all - ca,
    )?;
    if over_ok(image, k, t) {
        return Some(1 + t + w);
    }
    None
}

// The same from the root where there is one row: a leaf, whose entries are held against no key.
// So `leaf_ok`, which has large local arrays, has two callers and is compiled by itself: they stay out of the frames of `walk`.
pub fn one_row(image: &ReadyImage<'_>, hi: &[u8]) -> Option<usize>
    requires uppers { Uppers image.now.shape.variables hi.now }
    requires nodes_value { image.now.shape.nodes ≡ 1 }
    ensures { Walked (words image.now.bytes.now) image.now.shape (words hi.now) 0 4294967296 0 0 image.now.shape.entries result }
{
    let s = image.shape;
    let at = s.node_at(0);
    if words::get(image.bytes, at) != 0 {
        return None;
    }
    let c = words::get(image.bytes, at + fields::COUNT) as usize;
    if s.entries < c {
        return None;
    }
    if leaf_rows::leaf_ok(image, hi, 0..4294967296, at, 0, c) {
        return Some(1);
    }
    None
}
