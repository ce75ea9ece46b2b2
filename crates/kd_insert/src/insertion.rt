// An insert: the maxima, the entry's row, the tree, the permutation and the header.
ghost use Rattle.std.specs.Prelude.{◌≡◌, ◌+◌, ◌*◌, ◌%◌, ◌≤◌, ◌<◌, length};
ghost use Rattle.words.specs.Words.{words, paste_w};
ghost use Rattle.words.specs.Tables.{part};
ghost use Rattle.monomial.specs.Monomial.{Canonical};
ghost use Rattle.divmask.specs.Tracker.{Maxima, updated};
ghost use Rattle.index_theory.specs.Calls.{plain};
ghost use Rattle.index_image.specs.Shape as shape;
ghost use Rattle.kd_slots.specs.Slots.{Mapped, Lent};
ghost use Rattle.kd_descent.specs.Growing.{Growth, place};
ghost use Rattle.kd_insert.specs.Inserting.{Room, Inserted, signed, Hangs, hung};

use index_image::image::Image;
use index_image::{Shape, fields};
use power_table::Dense;

// Runs `update` on the present maxima.
pub fn track(image: &mut [u8], s: Shape, monomial: &[u8])
    requires room { 4 * shape.map_at s.variables ≤ length image.old }
    requires maxima { Maxima s.variables (part (words image.old) shape.maxima_at s.variables) }
    requires canonical { Canonical 1 s.variables (words monomial.now) }
    ensures { image.new ≡ paste_w image.old shape.maxima_at (updated (words monomial.now) (part (words image.old) shape.maxima_at s.variables)) }
{
    let m = s.variables;
    let a = 4 * fields::HEADER;
    divmask::tracker::update(&mut image[a..a + 4 * m], m as u32, monomial);
}

// Puts the place s.entries, whose entry has this lm and label, into the tree and the permutation, and counts it in the header.
// `Mapped` is a clause, no ghost field beside the `&mut`: see `kd_slots::write_masked`. The powers are in an array, since there is no heap.
pub fn hang(image: &mut [u8], s: Shape, lm: &[u8], label: u64)
    requires mapped { Mapped image.old s }
    requires lent { Lent s.variables lm.now }
    requires entries_lt_capacity { s.entries < s.capacity }
    requires hangs { Hangs (words image.old) s (words lm.now) label }
    ensures { (h : Hangs (words image.old) s (words lm.now) label) → image.new ≡ hung image.old s (words lm.now) label h.growth }
{
    let mut table = [0u8; 256];
    power_table::lay(&mut table, lm);
    let dense = Dense {
        monomial: lm,
        table: &table,
    };
    let n = s.entries;
    let at = s.permutation_at();
    let p = kd_descent::descend(image, s, &dense, label);
    words::runs::insert(image, at + p, at + n, n as u32);
    words::put(image, fields::LENGTH, n as u32 + 1);
}

// Inserts a monomial, and returns its number.
pub fn insert_monomial(image: &mut [u8], s: Shape, lm: &[u8]) -> usize
    requires room { Room image.old s }
    requires kind_value { s.kind ≡ 0 }
    requires canonical { Canonical 1 s.variables (words lm.now) }
    requires lm_len { length lm.now % 4 ≡ 0 }
    ensures { Inserted (plain (words lm.now)) result image.old image.new }
{
    let n = s.entries;
    track(image, s, lm);
    kd_slots::write_masked(image, s, s.entry_at(n), lm);
    hang(image, s, lm, 0);
    n
}

// Inserts an entry of a ratio index, and returns its number. It shares `track` and `hang` with `insert_monomial`; one function for both
// would branch on the kind at each step between them.
pub fn insert_ratio(image: &mut [u8], s: Shape, index: u32, sign: &[u8], lm: &[u8]) -> usize
    requires room { Room image.old s }
    requires kind_value { s.kind ≡ 1 }
    requires index_bound { index < 268435456 }
    requires canonical { (Canonical 1 s.variables (words sign.now)) × (length sign.now % 4 ≡ 0) }
    requires canonical_2 { (Canonical 1 s.variables (words lm.now)) × (length lm.now % 4 ≡ 0) }
    ensures { Inserted (signed index (words sign.now) (words lm.now)) result image.old image.new }
{
    let n = s.entries;
    let row = kd_labelling::label_entry(image, s, index, sign, lm);
    let labelled = Image {
        bytes: image,
        shape: s,
    };
    let label = labelled.row_label(row);
    track(image, s, sign);
    track(image, s, lm);
    kd_slots::write_ratio_row(image, s, s.entry_at(n), index, sign, lm, row as u32);
    hang(image, s, lm, label);
    n
}
