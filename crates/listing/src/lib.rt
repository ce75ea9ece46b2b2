// The listing of a monomial index: `to_vec` of kd_tree.rs and monomial_index.rs. It reads the image only, and splits nothing.
#![tactic(auto)]

ghost use Rattle.std.specs.Prelude.{◌≡◌, ◌+◌, ◌*◌, ◌≤◌, ◌<◌, length};
ghost use Rattle.words.specs.Words.{words, paste_w};
ghost use Rattle.index_theory.specs.Listing.{listing};
ghost use Rattle.index_image.specs.Rows.{entries_from};
ghost use Rattle.index_image.specs.Walk.{lm_in};
ghost use Rattle.listing.specs.Listed.{lms, Here, Below, Root, Each};

use index_image::image::ReadyImage;
use index_image::{Shape, fields, stored};

// Writes the monomial of entry e at the front of `out`, up to its end word, and returns its length in words. It writes each word as it reads it: to
// find the end first and copy then takes two loops, and their places in the frame of `write_below`, into which this is compiled.
fn write_monomial(image: &ReadyImage<'_>, e: usize, out: &mut [u8]) -> usize
    requires e_lt_entries { e < image.now.shape.entries }
    requires e_in_bounds { 4 * length (lm_in (words image.now.bytes.now) image.now.shape e) ≤ length out.old }
    ensures value { result ≡ length (lm_in (words image.now.bytes.now) image.now.shape e) }
    ensures out_after { out.new ≡ paste_w out.old 0 (lm_in (words image.now.bytes.now) image.now.shape e) }
{
    let at = image.shape.entry_at(e);
    let mut i: usize = 0;
    loop {
        let w = words::get(image.bytes, at + i);
        words::put(out, i, w);
        i += 1;
        if words::is_end(w) {
            return i;
        }
    }
}

// Writes the monomials of the c entries from place lo on at the front of `out`, and returns their length in words.
#[tactic(auto, using(crate::proofs::Monomials::places_lent))]
fn write_leaf(image: &ReadyImage<'_>, lo: usize, c: usize, out: &mut [u8]) -> usize
    requires c_bound { lo + c ≤ image.now.shape.entries }
    requires c_in_bounds { 4 * length (lms (words image.now.bytes.now) image.now.shape (entries_from (words image.now.bytes.now) image.now.shape lo c)) ≤ length out.old }
    ensures value { result ≡ length (lms (words image.now.bytes.now) image.now.shape (entries_from (words image.now.bytes.now) image.now.shape lo c)) }
    ensures out_after { out.new ≡ paste_w out.old 0 (lms (words image.now.bytes.now) image.now.shape (entries_from (words image.now.bytes.now) image.now.shape lo c)) }
{
    let p = image.shape.permutation_at() + lo;
    let mut n: usize = 0;
    for i in 0..c {
        let e = words::get(image.bytes, p + i) as usize;
        let at = 4 * n;
        n += write_monomial(image, e, &mut out[at..]);
    }
    n
}

// Writes the monomials below row k, whose entries start at place lo, the less side before the other.
fn write_below(image: &ReadyImage<'_>, k: usize, lo: usize, out: &mut [u8]) -> usize
    requires { Here (words image.now.bytes.now) image.now.shape k lo (length out.old) }
    ensures { (h : Here (words image.now.bytes.now) image.now.shape k lo (length out.old)) → Below (words image.now.bytes.now) image.now.shape k lo out.old out.new result h }
{
    let row = image.shape.node_at(k);
    if words::get(image.bytes, row) == 0 {
        let c = words::get(image.bytes, row + fields::COUNT) as usize;
        return write_leaf(image, lo, c, out);
    }
    let skip = words::get(image.bytes, row + fields::SKIP) as usize;
    let next = row + (image.shape.variables + fields::NODE);
    let less = words::get(image.bytes, next + fields::COUNT) as usize;
    let n = write_below(image, k + 1, lo, out);
    let at = 4 * n;
    n + write_below(image, k + 1 + skip, lo + less, &mut out[at..])
}

// How many words the monomials of all entries have.
#[tactic(auto, using(crate::proofs::Monomials::places_lent))]
fn words_of(image: &ReadyImage<'_>) -> usize
    ensures { result ≡ length (lms (words image.now.bytes.now) image.now.shape (entries_from (words image.now.bytes.now) image.now.shape 0 image.now.shape.entries)) }
{
    let s = image.shape;
    let p = s.permutation_at();
    let mut n: usize = 0;
    for i in 0..s.entries {
        let e = words::get(image.bytes, p + i) as usize;
        n += stored::monomial_in(image.bytes, s, s.entry_at(e)).len() / 4;
    }
    n
}

// The length of the listing in words.
pub fn listing_words(image: &[u8], s: Shape) -> usize
    requires { Root image.now s }
    ensures { Each image.now s (λ st. result ≡ length (listing st)) }
{
    words_of(&ReadyImage {
        bytes: image,
        shape: s,
    })
}

// Writes the listing at the front of `out`.
pub fn to_vec(image: &[u8], s: Shape, out: &mut [u8])
    requires root { Root image.now s }
    requires each { Each image.now s (λ st. 4 * length (listing st) ≤ length out.old) }
    ensures { Each image.now s (λ st. out.new ≡ paste_w out.old 0 (listing st)) }
{
    let image = ReadyImage {
        bytes: image,
        shape: s,
    };
    write_below(&image, 0, 0, out);
}
