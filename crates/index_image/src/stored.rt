// What the stored entries say: their monomials, their labels, and the gcd of some of them.
ghost use Rattle.std.specs.Prelude.{◌≡◌, ◌+◌, ◌*◌, ◌<◌, ◌≤◌, length, get_or, drop};
ghost use Rattle.words.specs.Words.{words, paste_w};
ghost use Rattle.words.specs.Tables.{part};
ghost use Rattle.monomial.specs.Monomial.{Canonical, Starts, pow, first, front};
ghost use Rattle.monomial.specs.Operations.{result_words};
ghost use Rattle.monomial.specs.declared.ordered_ops.Op.TheVariants.{Gcd};
ghost use Rattle.divmask.specs.Mask.{mask, vector};
ghost use Rattle.divmask.specs.Tracker.{Maxima};
ghost use Rattle.index_image.specs.Layout.{gcd_of};
ghost use Rattle.index_image.specs.Shape as shape;
ghost use Rattle.index_image.specs.Walk as entry;
ghost use Rattle.index_image.specs.Rows as row;

use crate::image::{Image, ReadyImage};
use crate::{Shape, fields};
use divmask::DivMap;

// The part of the image that is the canonical monomial at word g, which is known to stand there.
pub fn monomial_in(image: &[u8], s: Shape, g: usize) -> &[u8]
    requires { front 1 s.variables 0 (drop g (words image.now)) ≡ 0 → ⊥ }
    ensures { row.Taken result.now (row.monomial_in (words image.now) s.variables g) }
{
    monomial::known_at(image, g)
}

// The part of the image that begins with the canonical monomial at word g, whatever follows it there.
pub fn monomial_from(image: &[u8], s: Shape, g: usize) -> &[u8]
    requires fact { front 1 s.variables 0 (drop g (words image.now)) ≡ 0 → ⊥ }
    requires g_in_bounds { 4 * g ≤ length image.now }
    ensures { row.Begins s.variables result.now (row.monomial_in (words image.now) s.variables g) }
{
    let a = 4 * g;
    &image[a..]
}

impl<'a> Image<'a> {
    // The label in a row of the label map.
    pub fn row_label(&self, row: usize) -> u64
        requires { (self.now.shape.kind ≡ 1) × (row < self.now.shape.capacity) }
        ensures { result ≡ get_or (words self.now.bytes.now) (shape.label_at self.now.shape row) 0 }
    {
        let m = self.shape.variables;
        let at = fields::LABELS + row * (m + fields::LABEL_ROW) + (m + fields::LABEL);
        u64::from(words::get(self.bytes, self.shape.labels_at() + at))
    }

    // The label of the ratio of the entry at place e.
    pub fn label(&self, e: usize) -> u64
        requires kind_value { (self.now.shape.kind ≡ 1) × (e < self.now.shape.capacity) }
        requires e_bound { entry.row_in (words self.now.bytes.now) self.now.shape e < self.now.shape.capacity }
        ensures { result ≡ entry.label (words self.now.bytes.now) self.now.shape e }
    {
        let at = self.shape.entry_at(e) + (2 * self.shape.variables + fields::ROW);
        self.row_label(words::get(self.bytes, at) as usize)
    }

    // The map of the image: the maxima that its masks were made from.
    pub fn map(&self) -> &'a [u8]
        ensures { row.Taken result.now (entry.map_maxima (words self.now.bytes.now) self.now.shape) }
    {
        &self.bytes[self.shape.map()]
    }

    // How its masks are made.
    pub fn div_map(&self) -> DivMap<'a>
        requires { Maxima self.now.shape.variables (entry.map_maxima (words self.now.bytes.now) self.now.shape) }
        ensures { (result.variables ≡ self.now.shape.variables) × (words result.maxima.now ≡ entry.map_maxima (words self.now.bytes.now) self.now.shape) }
    {
        DivMap {
            maxima: self.map(),
            variables: self.shape.variables as u32,
        }
    }
}

// Replaces the monomial in the first n words by its gcd with the one that another slice begins with, and returns its length in words.
fn make_gcd(acc: &mut [u8], n: usize, other: &[u8]) -> usize
    requires acc_len { length acc.old ≡ 260 }
    requires n_bound { n ≤ 65 }
    requires canonical { Canonical 1 64 (part (words acc.old) 0 n) }
    requires starts { Starts 1 4096 (words other.now) }
    requires canonical_2 { Canonical 1 64 (first 1 (words other.now)) }
    ensures r_value { result ≡ length (result_words Gcd (part (words acc.old) 0 n) (first 1 (words other.now))) }
    ensures acc_after { acc.new ≡ paste_w acc.old 0 (result_words Gcd (part (words acc.old) 0 n) (first 1 (words other.now))) }
{
    let mut made = [0u8; 260];
    let e = 4 * n;
    let r = monomial::gcd(&acc[..e], other, &mut made);
    let f = 4 * r;
    words::runs::paste(acc, 0, &made[..f]);
    r
}

// The same, without a write where the monomial divides the other: the gcd of a leaf is found early, and divides all the rest.
fn meet(acc: &mut [u8], n: usize, other: &[u8]) -> usize
    requires acc_len { length acc.old ≡ 260 }
    requires n_bound { n ≤ 65 }
    requires canonical { Canonical 1 64 (part (words acc.old) 0 n) }
    requires starts { Starts 1 4096 (words other.now) }
    requires canonical_2 { Canonical 1 64 (first 1 (words other.now)) }
    ensures r_value { result ≡ length (result_words Gcd (part (words acc.old) 0 n) (first 1 (words other.now))) }
    ensures acc_after { acc.new ≡ paste_w acc.old 0 (result_words Gcd (part (words acc.old) 0 n) (first 1 (words other.now))) }
{
    let e = 4 * n;
    if monomial::divides(&acc[..e], other) {
        return n;
    }
    make_gcd(acc, n, other)
}

impl<'a> ReadyImage<'a> {
    // How the masks of the image are made.
    pub fn div_map(&self) -> DivMap<'a>
        ensures { (result.variables ≡ self.now.shape.variables) × (words result.maxima.now ≡ entry.map_maxima (words self.now.bytes.now) self.now.shape) }
    {
        self.image().div_map()
    }

    // The label of the ratio of the entry at place e.
    pub fn label(&self, e: usize) -> u64
        requires { (self.now.shape.kind ≡ 1) × (e < self.now.shape.entries) }
        ensures { result ≡ entry.label (words self.now.bytes.now) self.now.shape e }
    {
        self.image().label(e)
    }

    // Writes the gcd of the c entries from place lo on, and returns its length in words, as `monomial::gcd` does: a slice of `acc`
    // would be no plainer, since the gcd grows in place there, and the next step needs its length. Of none it is one.
    pub fn gcd_of(&self, lo: usize, c: usize, acc: &mut [u8]) -> usize
        requires c_bound { lo + c ≤ self.now.shape.entries }
        requires acc_len { length acc.old ≡ 260 }
        ensures { (result ≤ 65) × (part (words acc.new) 0 result ≡ gcd_of (entry.power (words self.now.bytes.now) self.now.shape) (row.entries_from (words self.now.bytes.now) self.now.shape lo c)) }
    {
        if c == 0 {
            words::put(acc, 0, 0);
            return 1;
        }
        let s = self.shape;
        let p = s.permutation_at() + lo;
        let e = words::get(self.bytes, p) as usize;
        let first = monomial_in(self.bytes, s, s.entry_at(e));
        words::runs::paste(acc, 0, first);
        let mut n = first.len() / 4;
        for i in 1..c {
            let e = words::get(self.bytes, p + i) as usize;
            n = meet(acc, n, monomial_from(self.bytes, s, s.entry_at(e)));
        }
        n
    }
}
