// The way of a new entry from the root to its leaf. Every row on it gets one entry more.
#![tactic(auto)]

ghost use Rattle.std.specs.Prelude.{◌≡◌, ◌≤◌, ◌<◌, get_or};
ghost use Rattle.words.specs.Words.{words, paste_w};
ghost use Rattle.monomial.specs.Monomial.{Canonical};
ghost use Rattle.monomial.specs.Operations.{result_words};
ghost use Rattle.monomial.specs.declared.ordered_ops.Op.{Op};
ghost use Rattle.index_image.specs.Shape as shape;
ghost use Rattle.index_image.specs.Walk as rows;
ghost use Rattle.index_image.specs.Walk.{map_maxima};
ghost use Rattle.index_image.specs.Rows.{monomial_in};
ghost use Rattle.kd_slots.specs.Slots.{Mapped, Lent, gcd_words};
ghost use Rattle.kd_descent.specs.Growing.{Row, below_key, grown_gcd, grown, Growth, keys, way_of, grown_rows, place};

use index_image::image::Image;
use index_image::{Shape, fields, stored};
use power_table::Dense;

// One step of the way: it stops at a leaf, behind so many entries; else so many rows on, passing over so many entries.
#[derive(Clone, Copy, Debug, PartialEq, Eq)]
pub enum Way {
    Leaf { places: usize },
    On { rows: usize, places: usize },
}

// Writes the gcd of the row at word `at` and another entry's lm, and its mask. Not shared with `index_image::stored`, where the gcd
// replaces the monomial that it is made of. The slot is read while it is made, so it is made aside, and in an array since there is no heap.
// `Mapped` and `Row` are clauses, not ghost fields beside the `&mut`: see `kd_slots::write_masked`.
fn make_gcd(image: &mut [u8], s: Shape, at: usize, lm: &[u8])
    requires mapped { Mapped image.old s }
    requires canonical { Canonical 1 s.variables (words lm.now) }
    requires row { Row (words image.old) s at }
    ensures { image.new ≡ paste_w image.old (shape.node_mask_at at) (gcd_words s.variables (map_maxima (words image.old) s) (result_words Op.Gcd (monomial_in (words image.old) s.variables (shape.gcd_at at)) (words lm.now))) }
{
    let mut made = [0u8; 260];
    let r = monomial::gcd(
        stored::monomial_in(image, s, at + fields::GCD),
        lm,
        &mut made,
    );
    let e = 4 * r;
    kd_slots::write_gcd(image, s, at, &made[..e]);
}

// The same, without a write where the row's gcd divides lm: there it stays as it is.
fn meet(image: &mut [u8], s: Shape, at: usize, lm: &Dense<'_>)
    requires mapped { Mapped image.old s }
    requires canonical { Canonical 1 s.variables (words lm.now.monomial.now) }
    requires row { Row (words image.old) s at }
    ensures { image.new ≡ paste_w image.old (shape.node_mask_at at) (gcd_words s.variables (map_maxima (words image.old) s) (result_words Op.Gcd (monomial_in (words image.old) s.variables (shape.gcd_at at)) (words lm.now.monomial.now))) }
{
    if !power_table::divides(stored::monomial_from(image, s, at + fields::GCD), lm.table) {
        make_gcd(image, s, at, lm.monomial);
    }
}

// The same for a row of c entries: of none the gcd is lm.
fn grow_gcd(image: &mut [u8], s: Shape, at: usize, c: u32, lm: &Dense<'_>)
    requires mapped { Mapped image.old s }
    requires lent { Lent s.variables lm.now.monomial.now }
    requires row { Row (words image.old) s at }
    ensures { image.new ≡ paste_w image.old (shape.node_mask_at at) (gcd_words s.variables (map_maxima (words image.old) s) (grown_gcd (words image.old) s.variables at c (words lm.now.monomial.now))) }
{
    if c == 0 {
        kd_slots::write_gcd(image, s, at, lm.monomial);
    } else {
        meet(image, s, at, lm);
    }
}

// Gives the row at word `at` one entry more: its count, gcd and mask.
pub fn grow(image: &mut [u8], s: Shape, at: usize, lm: &Dense<'_>)
    requires mapped { Mapped image.old s }
    requires lent { Lent s.variables lm.now.monomial.now }
    requires row { Row (words image.old) s at }
    requires room { get_or (words image.old) (shape.count_at at) 0 < s.capacity }
    ensures { image.new ≡ grown image.old (words image.old) s at (words lm.now.monomial.now) }
{
    let c = words::get(image, at + fields::COUNT);
    grow_gcd(image, s, at, c, lm);
    words::put(image, at + fields::COUNT, c + 1);
}

// Whether an entry with this lm and this label lies below the key of a branch.
fn is_below(image: &Image<'_>, tag: usize, key: u32, lm: &Dense<'_>, label: u64) -> bool
    requires le_tag { (1 ≤ tag) × (tag ≤ rows.dims image.now.shape) }
    requires key_lt_capacity { tag ≡ image.now.shape.kind → (key < image.now.shape.capacity) × (rows.row_in (words image.now.bytes.now) image.now.shape key < image.now.shape.capacity) }
    ensures { result ≡ below_key (words image.now.bytes.now) image.now.shape (words lm.now.monomial.now) label tag key }
{
    let kind = image.shape.kind;
    if tag == kind {
        return label < image.label(key as usize);
    }
    words::get(lm.table, tag - 1 - kind) < key
}

// One step of the way, at row k.
pub fn next_step(image: &Image<'_>, k: usize, lm: &Dense<'_>, label: u64) -> Way
    requires { Growth (words image.now.bytes.now) image.now.shape (words lm.now.monomial.now) label k }
    ensures { ((g : Growth (words image.now.bytes.now) image.now.shape (words lm.now.monomial.now) label k) → result ≡ way_of (keys g) g.entry g.tree) }
{
    let at = image.shape.node_at(k);
    let tag = words::get(image.bytes, at) as usize;
    if tag == 0 {
        let places = words::get(image.bytes, at + fields::COUNT) as usize;
        return Way::Leaf { places };
    }
    let key = words::get(image.bytes, at + fields::KEY);
    if is_below(image, tag, key, lm, label) {
        return Way::On { rows: 1, places: 0 };
    }
    let skip = words::get(image.bytes, at + fields::SKIP) as usize;
    let less = at + (image.shape.variables + fields::NODE);
    let passed = words::get(image.bytes, less + fields::COUNT) as usize;
    Way::On {
        rows: 1 + skip,
        places: passed,
    }
}

// Goes down from the root to the leaf of a new entry, gives every row on the way one entry more, and returns the entry's place
// in the permutation.
pub fn descend(image: &mut [u8], s: Shape, lm: &Dense<'_>, label: u64) -> usize
    requires mapped { Mapped image.old s }
    requires lent { Lent s.variables lm.now.monomial.now }
    requires growth { Growth (words image.old) s (words lm.now.monomial.now) label 0 }
    ensures { ((g : Growth (words image.old) s (words lm.now.monomial.now) label 0) → (result ≡ place g) × (image.new ≡ paste_w image.old (shape.node_at s 0) (grown_rows g))) }
{
    let mut k: usize = 0;
    let mut lo: usize = 0;
    // A loop by hand: it goes down a tree, and each step says how many rows the next one is on.
    loop {
        let now = Image {
            bytes: image,
            shape: s,
        };
        let way = next_step(&now, k, lm, label);
        grow(image, s, s.node_at(k), lm);
        match way {
            Way::Leaf { places } => return lo + places,
            Way::On { rows, places } => {
                k += rows;
                lo += places;
            }
        }
    }
}
