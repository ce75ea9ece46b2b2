// The door's question 3: whether the bytes lent begin with the image of a valid index.
// Each table is judged by the ones before it, and what follows from other words is made again and compared.
#![tactic(auto)]

ghost use Rattle.std.specs.Prelude.{◌≡◌, true, ◌↔◌, ℕ, ◌+◌, ◌*◌, ◌≤◌, ◌<◌, length, get_or, Ok, IfErr};
ghost use Rattle.words.specs.Words.{words};
ghost use Rattle.refusals.specs.declared.Refusal.TheVariants.{Unsound};
ghost use Rattle.index_image.specs.Layout.{Sound};
ghost use Rattle.index_image.specs.Walk.{Ready};
ghost use Rattle.index_image.specs.Door.{Tables, EntriesOk};
ghost use Rattle.index_sound.specs.Checks as check;

use divmask::tracker::maxima_good;
use index_image::image::{Image, ReadyImage};
use index_image::{Shape, fields};
use refusals::Refusal;

// Whether the maxima pass question 1, the present ones and those of the map.
fn maxima_ok(image: &Image<'_>) -> bool
    ensures { (result ≡ true) ↔ check.MaximaOk (words image.now.bytes.now) image.now.shape }
{
    let m = image.shape.variables;
    let a = 4 * fields::HEADER;
    let b = a + 4 * m;
    let present = &image.bytes[a..b];
    maxima_good(present, m as u32) && maxima_good(image.map(), m as u32)
}

// Whether a ratio index has a sound label map.
fn labels_ok(image: &Image<'_>) -> bool
    ensures { (result ≡ true) ↔ check.LabelsOk image.now.bytes.now image.now.shape }
{
    let s = image.shape;
    s.kind == 0 || label_sound::sound_for(&image.bytes[s.labels()], s.variables, s.capacity)
}

// Whether the permutation names each entry.
fn permutation_ok(image: &Image<'_>) -> bool
    ensures { (result ≡ true) ↔ check.PermutationOk (words image.now.bytes.now) image.now.shape }
{
    let bytes = image.bytes;
    let p = image.shape.permutation_at();
    let n = image.shape.entries;
    label_sound::numbers_ok(bytes, p, n)
        && index_tables::marks::all_named(bytes, p, 1, n, n)
        && words::runs::is_blank(bytes, p + n, image.shape.capacity - n)
}

// Whether each row of the label map is the ratio of an entry.
fn rows_named(image: &Image<'_>) -> bool
    requires tables { Tables (words image.now.bytes.now) image.now.shape }
    requires entries_ok { EntriesOk (words image.now.bytes.now) image.now.shape }
    ensures { (result ≡ true) ↔ check.RowsNamed (words image.now.bytes.now) image.now.shape }
{
    let s = image.shape;
    // Not `||`: what follows needs three numbers, which a monomial index has no use for.
    if s.kind == 0 {
        return true;
    }
    let e = s.entry_at(0) + (2 * s.variables + fields::ROW);
    let rows = words::get(image.bytes, s.labels_at() + fields::ROWS) as usize;
    index_tables::marks::all_named(image.bytes, e, s.entry_width(), s.entries, rows)
}

// Writes a bound above every power into each word.
fn unbounded(hi: &mut [u8])
    ensures hi_len_unchanged { length hi.new ≡ length hi.old }
    ensures by_index { (v : ℕ) → 4 * v + 4 ≤ length hi.old → get_or (words hi.new) v 0 ≡ 32768 }
{
    for i in 0..hi.len() / 4 {
        words::put(hi, i, 32768);
    }
}

// The number of rows of the tree of at most all entries at the first node row; none where there is no such tree.
// `hi` has a word a variable, for the bounds that go down the tree. The bytes come beside their shape: that a word of them, as a label is,
// lies below 2^32 is known of a parameter's bytes, and not of a field's.
fn walk_from_root(bytes: &[u8], shape: Shape, hi: &mut [u8]) -> Option<usize>
    requires ready { Ready (words bytes.now) shape }
    requires hi_len { length hi.old ≡ 4 * shape.variables }
    ensures { check.Rooted (words bytes.now) shape result }
{
    let image = ReadyImage { bytes, shape };
    unbounded(hi);
    if shape.nodes == 1 {
        return index_walk::one_row(&image, hi);
    }
    index_walk::walk(&image, hi, 0..4294967296, 0, 0, shape.entries)
}

fn tree_rows(image: &ReadyImage<'_>) -> Option<usize>
    ensures { check.Rooted (words image.now.bytes.now) image.now.shape result }
{
    // A word for each of 64 variables: there is no heap, so the length is fixed.
    let mut hi = [0u8; 256];
    let e = 4 * image.shape.variables;
    walk_from_root(image.bytes, image.shape, &mut hi[..e])
}

// Whether the node rows are those of one tree of all entries, and zeros behind them.
fn nodes_ok(image: &ReadyImage<'_>) -> bool
    ensures { (result ≡ true) ↔ check.NodesOk (words image.now.bytes.now) image.now.shape }
{
    let s = image.shape;
    let rest = (2 * s.capacity - 1 - s.nodes) * (s.variables + fields::NODE);
    words::get(image.bytes, s.node_at(0) + fields::COUNT) as usize == s.entries
        && words::runs::is_blank(image.bytes, s.node_at(s.nodes), rest)
        && tree_rows(image) == Some(s.nodes)
}

// Whether the tables hold an index, which the header's numbers say where to find.
#[tactic(auto, using(crate::proofs::Steps::tables_of, crate::proofs::Steps::ready_of))]
fn tables_ok(image: &Image<'_>) -> bool
    ensures { (result ≡ true) ↔ check.TablesOk image.now.bytes.now image.now.shape }
{
    maxima_ok(image)
        && labels_ok(image)
        && index_tables::entries::entries_ok(image)
        && permutation_ok(image)
        && rows_named(image)
        && nodes_ok(&ReadyImage {
            bytes: image.bytes,
            shape: image.shape,
        })
}

// Whether the bytes begin with the image of a valid index.
#[tactic(auto, unfolding(index_image::specs::Head::HeadIs))]
pub fn sound(image: &[u8]) -> bool
    ensures { (result ≡ true) ↔ Sound image.now }
{
    match index_image::head::read(image) {
        Some(shape) => tables_ok(&Image {
            bytes: image,
            shape,
        }),
        None => false,
    }
}

// Question 3: an image that is not sound is refused.
fn judge(image: &[u8]) -> Result<(), Refusal>
    ensures served { (result ≡ Ok tt) ↔ Sound image.now }
    ensures refused { IfErr result (λ e. e ≡ Unsound) }
{
    if sound(image) {
        Ok(())
    } else {
        Err(Refusal::Unsound)
    }
}

// The door of question 3 alone: 0 where the bytes begin with the image of a valid index, else 3. It reads only.
#[tactic(auto, unfolding(refusals::specs::Numbers::told, refusals::specs::Numbers::number))]
#[unsafe(no_mangle)]
pub extern "C" fn divisor_index_check(image: &[u8]) -> u32
    ensures { check.Judged image.now result }
{
    refusals::told(judge(image))
}
