// A leaf of the k-d tree is split in place: the dimension, the two sides of its entries, and three rows in the place of its row.
#![tactic(auto)]

ghost use Rattle.std.specs.Prelude.{◌≤◌};
ghost use Rattle.kd_split.specs.Split.{Standing, Splittable, SplitAt, RootSplit};

use index_image::image::ReadyImage;
use index_image::{Shape, fields};
use kd_dimension::Average;

// Splits the leaf at row k, of the c entries from place lo on, in the dimension of an average, at its value. In dimension 0 of a ratio index the
// key is an entry.
pub fn split_leaf(
    image: &mut [u8],
    s: Shape,
    k: usize,
    lo: usize,
    rows: usize,
    c: usize,
    average: Average,
)
    requires { Splittable image.old s k lo rows c average.dim }
    ensures { SplitAt image.old image.new s k lo rows average.dim average.value }
{
    let ready = ReadyImage {
        bytes: image,
        shape: s,
    };
    let key = kd_sides::mark(&ready, average, lo, c);
    let n = kd_sides::part_entries(image, s, average, lo, c);
    let w = s.variables + fields::NODE;
    let at = s.node_at(k);
    words::runs::move_up(image, at + w, s.node_at(rows), 2 * w);
    let mask = words::get(image, at + fields::NODE_MASK);
    kd_rows::row_head(image, at, average.dim as u32 + 1, key, c as u32, 1, mask);
    kd_rows::write_leaf(image, s, at + w, lo, n);
    kd_rows::write_leaf(image, s, at + 2 * w, lo + n, c - n);
}

// Opens the node at row k: a leaf of more than 64 entries is split, if it can be. None where it is a leaf that stays, else the rows in use.
pub fn split_node(
    image: &mut [u8],
    s: Shape,
    dim: usize,
    k: usize,
    lo: usize,
    rows: usize,
) -> Option<usize>
    requires standing { Standing image.old s k lo rows }
    requires dim_bound { dim ≤ 65 }
    ensures { RootSplit image.old image.new s dim k lo rows result }
{
    let at = s.node_at(k);
    if words::get(image, at) != 0 {
        return Some(rows);
    }
    let c = words::get(image, at + fields::COUNT) as usize;
    if c <= 64 {
        return None;
    }
    let average = kd_dimension::choose(image, s, dim, lo, c)?;
    split_leaf(image, s, k, lo, rows, c, average);
    Some(rows + 2)
}
