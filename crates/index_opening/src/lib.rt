// The opening: an index that holds nothing, written from the front of the image to its end, each word once. The functions take the image's
// bytes and its numbers: a struct that knows that they fit would owe it again after each write.
#![tactic(auto)]

ghost use Rattle.std.specs.Prelude.{◌≡◌, [], ◌∷◌, ◌*◌, ◌≤◌, length};
ghost use Rattle.words.specs.Words.{words, paste_w};
ghost use Rattle.words.specs.Tables.{zeros};
ghost use Rattle.divmask.specs.Tracker.{Maxima};
ghost use Rattle.fast_compare.specs.Map.{empty};
ghost use Rattle.index_theory.specs.State.{opened};
ghost use Rattle.index_image.specs.Layout.{label_words, encode};
ghost use Rattle.index_image.specs.Shape as at;
ghost use Rattle.index_opening.specs.Kinds.{index_kind};

use index_image::{Shape, fields};

// Writes the header.
fn open_head(image: &mut [u8], s: Shape)
    requires in_range { at.InRange s }
    requires in_bounds { 96 ≤ length image.old }
    ensures { image.new ≡ paste_w image.old 0 (1 ∷ s.kind ∷ s.variables ∷ s.capacity ∷ 0 ∷ 1 ∷ zeros at.kept) }
{
    words::put(image, fields::LAYOUT, 1);
    words::put(image, fields::KIND, s.kind as u32);
    words::put(image, fields::VARIABLES, s.variables as u32);
    words::put(image, fields::CAPACITY, s.capacity as u32);
    words::put(image, fields::LENGTH, 0);
    words::put(image, fields::NODES, 1);
    words::runs::clear(image, fields::KEPT, fields::HEADER - fields::KEPT);
}

// Writes the label map of a ratio index.
fn open_labels(image: &mut [u8], s: Shape)
    requires in_range { at.InRange s }
    requires s_in_bounds { 4 * at.size s ≤ length image.old }
    ensures { image.new ≡ paste_w image.old (at.labels_at s) (label_words (index_kind s.kind) (empty s.variables s.capacity)) }
{
    if s.kind != 0 {
        fast_compare::open(&mut image[s.labels()], s.variables, s.capacity);
    }
}

// Writes the image of an index that holds nothing.
pub fn open_tables(image: &mut [u8], s: Shape, maxima: &[u8])
    requires in_range { at.InRange s }
    requires s_in_bounds { 4 * at.size s ≤ length image.old }
    requires maxima { Maxima s.variables (words maxima.now) }
    requires maxima_len { length maxima.now ≡ 4 * s.variables }
    ensures { image.new ≡ paste_w image.old 0 (encode (opened (index_kind s.kind) s.variables s.capacity (words maxima.now))) }
{
    let m = s.variables;
    open_head(image, s);
    words::runs::paste(image, fields::HEADER, maxima);
    words::runs::paste(image, fields::HEADER + m, maxima);
    let entries = s.entry_at(0);
    words::runs::clear(image, entries, s.labels_at() - entries);
    open_labels(image, s);
    let nodes = s.node_at(0);
    words::runs::clear(image, nodes, s.size() - nodes);
}
