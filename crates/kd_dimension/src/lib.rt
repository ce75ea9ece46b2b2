// The dimension that a leaf of the k-d tree is split in, and the average of its least and greatest number there.
#![tactic(auto)]

ghost use Rattle.std.specs.Prelude.{◌≡◌, ◌+◌, ◌<◌, ◌≤◌};
ghost use Rattle.words.specs.Words.{words};
ghost use Rattle.index_image.specs.Walk as walk;
ghost use Rattle.index_image.specs.Rows.{entries_from};
ghost use Rattle.kd_theory.specs.Bifurcate as bif;
ghost use Rattle.kd_dimension.specs.Choice.{key_in, mark_in, Chose};

use index_image::image::ReadyImage;
use index_image::{Shape, stored};
use monomial::Kind;

#[derive(Clone, Copy)]
pub struct Average {
    pub dim: usize,
    pub value: u32,
}

// The power of variable v in the lm of entry e.
fn power_in(image: &ReadyImage<'_>, v: usize, e: usize) -> u32
    requires { (v < image.now.shape.variables) × (e < image.now.shape.entries) }
    ensures { result ≡ walk.power (words image.now.bytes.now) image.now.shape v e }
{
    let s = image.shape;
    let lm = stored::monomial_from(image.bytes, s, s.entry_at(e));
    monomial::power_of(lm, Kind::Monomial, v as u32)
}

// The number of entry e in dimension d: in dimension 0 of a ratio index the label of its ratio, else a power of its lm.
pub fn key_in(image: &ReadyImage<'_>, d: usize, e: usize) -> u64
    requires { (d < walk.dims image.now.shape) × (e < image.now.shape.entries) }
    ensures { result ≡ key_in (words image.now.bytes.now) image.now.shape d e }
{
    if image.shape.kind == 0 {
        return u64::from(power_in(image, d, e));
    }
    if d == 0 {
        return image.label(e);
    }
    u64::from(power_in(image, d - 1, e))
}

// The least and the greatest number in dimension v among the c entries from place lo on.
fn extremes(image: &ReadyImage<'_>, v: usize, lo: usize, c: usize) -> (u64, u64)
    requires { (v < walk.dims image.now.shape) × ((lo + c ≤ image.now.shape.entries) × (1 ≤ c)) }
    ensures { (result.0 ≡ bif.least (key_in (words image.now.bytes.now) image.now.shape v) (entries_from (words image.now.bytes.now) image.now.shape lo c)) × (result.1 ≡ bif.greatest (key_in (words image.now.bytes.now) image.now.shape v) (entries_from (words image.now.bytes.now) image.now.shape lo c)) }
{
    let p = image.shape.permutation_at() + lo;
    let first = key_in(image, v, words::get(image.bytes, p) as usize);
    let mut least = first;
    let mut greatest = first;
    for i in 1..c {
        let x = key_in(image, v, words::get(image.bytes, p + i) as usize);
        least = least.min(x);
        greatest = greatest.max(x);
    }
    (least, greatest)
}

// The first dimension, from `dim` on and round, in which two of the c entries from place lo on differ: none where they are the same in each.
// It takes the bytes beside the shape: of a slice it is known that each byte is below 256, so that the average fits, of a struct's field it is not.
pub fn choose(image: &[u8], s: Shape, dim: usize, lo: usize, c: usize) -> Option<Average>
    requires ready { walk.Ready (words image.now) s }
    requires dim_bound { (dim ≤ 65) × ((lo + c ≤ s.entries) × (1 ≤ c)) }
    ensures { Chose (key_in (words image.now) s) (mark_in (words image.now) s) (walk.dims s) (walk.dims s) dim (entries_from (words image.now) s lo c) result }
{
    let ready = ReadyImage {
        bytes: image,
        shape: s,
    };
    let n = s.variables + s.kind;
    for i in 0..n {
        let d = (dim + i) % n;
        let (least, greatest) = extremes(&ready, d, lo, c);
        if least < greatest {
            return Some(Average {
                dim: d,
                value: (least + greatest).div_ceil(2) as u32,
            });
        }
    }
    None
}
