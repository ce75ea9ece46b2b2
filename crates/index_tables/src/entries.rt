// The door's checks of the entries: canonical slots with their masks, ratios that the label map has, and unused rows that are 0.
ghost use Rattle.std.specs.Prelude.{◌≡◌, true, cond, ◌↔◌, ℕ, ◌+◌, ◌*◌, ◌≤◌, ◌<◌, eqb, length};
ghost use Rattle.words.specs.Words.{words};
ghost use Rattle.words.specs.Kinds.{var_word};
ghost use Rattle.monomial.specs.Monomial.{Starts, first};
ghost use Rattle.monomial.specs.Operations.{result_words};
ghost use Rattle.monomial.specs.declared.ordered_ops.Op.{Op};
ghost use Rattle.index_theory.specs.Entries.{quotient_of};
ghost use Rattle.index_image.specs.Door as door;
ghost use Rattle.index_image.specs.Shape as at;
ghost use Rattle.index_image.specs.Walk.{lm_in, row_in, map_maxima};

use divmask_table::Masks;
use index_image::fields;
use index_image::image::Image;

// Whether a canonical monomial stands in the slot at word i, zeros behind it, and then its mask and short exponent vector.
pub fn masked_slot(image: &[u8], masks: &Masks<'_>, i: usize) -> bool
    requires i_in_bounds { 4 * (i + at.masked_width masks.now.map.variables) ≤ length image.now }
    ensures { (result ≡ true) ↔ door.MaskedSlot (words image.now) masks.now.map.variables (words masks.now.map.maxima.now) i }
{
    let Some(found) = masks.judge(image, i) else {
        return false;
    };
    let n = found.words;
    let m = masks.map.variables as usize;
    words::runs::is_blank(image, i + n, m + fields::SLOT - n)
        && words::pairs::get(image, i + (m + fields::MASK)) == found.masks
}

// Whether w is the word that a ratio has for variable v, whose power is p − 32,768. It has none for power 0.
fn agrees(w: u32, v: u32, p: u32) -> bool
    requires { (v < 4096) × (p < 65536) }
    ensures { result ≡ cond (eqb p 32768) true (eqb w (var_word 2 v p)) }
{
    p == 32768 || w == words::ratio_word(v, p)
}

// The place behind word n, where there is a word for the power.
fn place_after(n: usize, p: u32) -> usize
    requires { n ≤ 4096 }
    ensures { result ≡ cond (eqb p 32768) n (n + 1) }
{
    if p == 32768 { n } else { n + 1 }
}

// Whether c starts with the ratio of the monomials that a and b start with. It is compared while it is merged, and written nowhere.
fn is_ratio(a: &[u8], b: &[u8], c: &[u8]) -> bool
    requires starts { Starts 1 4096 (words a.now) }
    requires starts_2 { Starts 1 4096 (words b.now) }
    requires b_in_bounds { 4 * length (result_words Op.Ratio (first 1 (words a.now)) (first 1 (words b.now))) ≤ length c.now }
    ensures { (result ≡ true) ↔ door.HasRatio (first 1 (words a.now)) (first 1 (words b.now)) (words c.now) }
{
    let mut i: usize = 0;
    let mut j: usize = 0;
    let mut n: usize = 0;
    // A loop by hand: it merges two lists into a third, and which of the three goes on depends on their words.
    loop {
        let x = words::get(a, i);
        let y = words::get(b, j);
        let w = words::get(c, n);
        let u = monomial::ordered_ops::upper(x, y);
        if u == 0 {
            return w as usize == n;
        }
        let q = monomial::ordered_ops::power_at(y, u, 0);
        let p = monomial::ordered_ops::power_at(x, u, 0) + 32768 - q;
        if !agrees(w, words::upper_id(u), p) {
            return false;
        }
        n = place_after(n, p);
        i = monomial::ordered_ops::step(i, x, u);
        j = monomial::ordered_ops::step(j, y, u);
    }
}

// Whether the label map's row that entry i names has the entry's ratio.
fn has_ratio(image: &Image<'_>, i: usize) -> bool
    requires kind_value { (image.now.shape.kind ≡ 1) × (i < image.now.shape.entries) }
    requires ratio_ready { door.RatioReady (words image.now.bytes.now) image.now.shape i }
    ensures { (result ≡ true) ↔ (door.row_value (words image.now.bytes.now) image.now.shape (row_in (words image.now.bytes.now) image.now.shape i) ≡ quotient_of (door.index_in (words image.now.bytes.now) image.now.shape i) (door.sign_in (words image.now.bytes.now) image.now.shape i) (lm_in (words image.now.bytes.now) image.now.shape i)) }
{
    let s = image.shape;
    let bytes = image.bytes;
    let m = s.variables;
    let e = s.entry_at(i);
    let row = words::get(bytes, e + (2 * m + fields::ROW)) as usize;
    let r = s.labels_at() + (fields::LABELS + row * (m + fields::LABEL_ROW));
    let x = 4 * (e + (m + fields::SIGN));
    let y = 4 * e;
    let z = 4 * (r + fields::RATIO);
    words::get(bytes, e + (m + fields::INDEX)) == words::get(bytes, r)
        && is_ratio(&bytes[x..], &bytes[y..], &bytes[z..])
}

// An image whose entries are looked at: the tables before them are known to be good, and the masks are made by its map.
#[derive(Clone, Copy)]
struct Judging<'a> {
    image: Image<'a>,
    masks: Masks<'a>,
    ghost tables: { door.Tables (words image.bytes.now) image.shape },
    ghost variables: { masks.map.variables ≡ image.shape.variables },
    ghost maxima: { words masks.map.maxima.now ≡ map_maxima (words image.bytes.now) image.shape },
}

impl Judging<'_> {
    // Whether the entry at place i of a ratio index has an index, a signature monomial and a ratio.
    fn ratio_ok(&self, i: usize) -> bool
        requires kind_value { (self.now.image.shape.kind ≡ 1) × (i < self.now.image.shape.entries) }
        requires masked_slot { door.MaskedSlot (words self.now.image.bytes.now) self.now.image.shape.variables (map_maxima (words self.now.image.bytes.now) self.now.image.shape) (at.lm_at self.now.image.shape i) }
        ensures { (result ≡ true) ↔ door.RatioOk (words self.now.image.bytes.now) self.now.image.shape i }
    {
        let s = self.image.shape;
        let bytes = self.image.bytes;
        let m = s.variables;
        let e = s.entry_at(i);
        words::kind(words::get(bytes, e + (m + fields::INDEX))) == words::INDEX
            && masked_slot(bytes, &self.masks, e + (m + fields::SIGN))
            && words::get(bytes, e + (2 * m + fields::ROW))
                < words::get(bytes, s.labels_at() + fields::ROWS)
            && has_ratio(&self.image, i)
    }

    // Whether the entry at place i is one.
    fn entry_ok(&self, i: usize) -> bool
        requires { i < self.now.image.shape.entries }
        ensures { (result ≡ true) ↔ door.EntryOk (words self.now.image.bytes.now) self.now.image.shape i }
    {
        let s = self.image.shape;
        masked_slot(self.image.bytes, &self.masks, s.entry_at(i))
            && (s.kind == 0 || self.ratio_ok(i))
    }

    // Whether each place below the number of entries has an entry.
    fn all_entries(&self) -> bool
        ensures { (result ≡ true) ↔ ((i : ℕ) → i < self.now.image.shape.entries → door.EntryOk (words self.now.image.bytes.now) self.now.image.shape i) }
    {
        for i in 0..self.image.shape.entries {
            if !self.entry_ok(i) {
                return false;
            }
        }
        true
    }
}

// Whether each place below the number of entries has an entry, by masks that are made for all of them.
fn each_ok(image: &Image<'_>) -> bool
    requires { door.Tables (words image.now.bytes.now) image.now.shape }
    ensures { (result ≡ true) ↔ ((i : ℕ) → i < image.now.shape.entries → door.EntryOk (words image.now.bytes.now) image.now.shape i) }
{
    let map = image.div_map();
    // The largest table, of 64 variables: there is no heap, so its length is fixed.
    let mut table = [0u8; 8192];
    let limit = divmask_table::prepare(&map, image.shape.entries, &mut table);
    let masks = Masks {
        map,
        table: &table,
        limit,
    };
    let judging = Judging {
        image: *image,
        masks,
    };
    judging.all_entries()
}

// Whether the entries are sound, and the rows behind them 0.
pub fn entries_ok(image: &Image<'_>) -> bool
    requires { door.Tables (words image.now.bytes.now) image.now.shape }
    ensures { (result ≡ true) ↔ door.EntriesOk (words image.now.bytes.now) image.now.shape }
{
    let s = image.shape;
    let n = s.entries;
    let rest = (s.capacity - n) * s.entry_width();
    words::runs::is_blank(image.bytes, s.entry_at(n), rest) && each_ok(image)
}
