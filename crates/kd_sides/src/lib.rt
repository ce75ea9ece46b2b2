// The entries of a leaf of the k-d tree, parted into the two sides of a branch, and the key of that branch.
#![tactic(auto)]

ghost use Rattle.std.specs.Prelude.{◌≡◌, Bool, ℕ, false, cond, Some, IfSome, ◌++◌, ◌+◌, ◌*◌, ◌<◌, ◌≤◌, ltb, length};
ghost use Rattle.words.specs.Words.{words, paste_w};
ghost use Rattle.index_image.specs.Shape as at;
ghost use Rattle.index_image.specs.Walk as walk;
ghost use Rattle.index_image.specs.Rows.{entries_from};
ghost use Rattle.kd_theory.specs.Bag.{keep};
ghost use Rattle.kd_dimension.specs.Choice.{key_in, least_place, mark_in};
ghost use Rattle.kd_sides.specs.Sides.{lower_of, on_side, lesses, others, Says, Takes, Gathered};

use index_image::Shape;
use index_image::image::ReadyImage;
use kd_dimension::Average;

// Writes those of the c entries from place lo on that are wanted, in their order, from word `at` of `out` on. Returns how many they are.
fn gather<F: Fn(usize) -> bool>(
    image: &ReadyImage<'_>,
    lo: usize,
    c: usize,
    wanted: F,
    out: &mut [u8],
    at: usize,
) -> usize
    requires lo_bound { lo + c ≤ image.now.shape.entries }
    requires asked { (e : ℕ) → e < image.now.shape.entries → F.pre wanted e }
    requires taken { Takes (F.post wanted) image.now.shape.entries (entries_from (words image.now.bytes.now) image.now.shape lo c) at (length out.old) }
    ensures { (p : ℕ → Bool) → Says (F.post wanted) image.now.shape.entries p → Gathered p (entries_from (words image.now.bytes.now) image.now.shape lo c) at out.old out.new result }
{
    let p = image.shape.permutation_at() + lo;
    let mut n = 0;
    for i in 0..c {
        let e = words::get(image.bytes, p + i);
        if wanted(e as usize) {
            words::put(out, at + n, e);
            n += 1;
        }
    }
    n
}

// Puts those of the c entries from place lo on that are on the less side first, each side in its order. Returns how many they are.
pub fn part_entries(image: &mut [u8], s: Shape, average: Average, lo: usize, c: usize) -> usize
    requires ready { walk.Ready (words image.old) s }
    requires d_bound { (average.dim < walk.dims s) × (lo + c ≤ s.entries) }
    ensures value { result ≡ length (lesses (words image.old) s average.dim average.value lo c) }
    ensures image_after { image.new ≡ paste_w image.old (at.permutation_at s + lo) (lesses (words image.old) s average.dim average.value lo c ++ others (words image.old) s average.dim average.value lo c) }
{
    // No heap: room for the entries of the largest index, 4,096 words.
    let mut scratch = [0u8; 16384];
    let ready = ReadyImage {
        bytes: image,
        shape: s,
    };
    let less = |e| kd_dimension::key_in(&ready, average.dim, e) < u64::from(average.value);
    let n = gather(&ready, lo, c, less, &mut scratch, 0);
    let m = gather(&ready, lo, c, |e| !less(e), &mut scratch, n);
    words::runs::paste(image, s.permutation_at() + lo, &scratch[..4 * (n + m)]);
    n
}

// Of entry e and the one so far the one of the lower label, if that of e is not below x.
fn lower(image: &ReadyImage<'_>, x: u32, e: usize, best: Option<usize>) -> Option<usize>
    requires kind_value { (image.now.shape.kind ≡ 1) × (e < image.now.shape.entries) }
    requires best_bound { IfSome best (λ b. b < image.now.shape.entries) }
    ensures value { result ≡ cond (ltb (walk.label (words image.now.bytes.now) image.now.shape e) x) best (Some (lower_of (walk.label (words image.now.bytes.now) image.now.shape) e best)) }
    ensures bound { IfSome result (λ b. b < image.now.shape.entries) }
{
    let l = image.label(e);
    if l < u64::from(x) {
        return best;
    }
    let Some(b) = best else {
        return Some(e);
    };
    if l < image.label(b) { Some(e) } else { best }
}

// The first of least label among those of the c entries from place lo on whose label is not below x.
fn first_least(image: &ReadyImage<'_>, x: u32, lo: usize, c: usize) -> Option<usize>
    requires { (image.now.shape.kind ≡ 1) × (lo + c ≤ image.now.shape.entries) }
    ensures value { result ≡ least_place (walk.label (words image.now.bytes.now) image.now.shape) (keep (on_side (key_in (words image.now.bytes.now) image.now.shape) 0 x false) (entries_from (words image.now.bytes.now) image.now.shape lo c)) }
    ensures bound { IfSome result (λ e. e < image.now.shape.entries) }
{
    let p = image.shape.permutation_at() + lo;
    let mut best = None;
    for i in 0..c {
        let e = words::get(image.bytes, p + i) as usize;
        best = lower(image, x, e, best);
    }
    best
}

// The key of a branch that parts the c entries from place lo on at an average.
pub fn mark(image: &ReadyImage<'_>, average: Average, lo: usize, c: usize) -> u32
    requires { lo + c ≤ image.now.shape.entries }
    ensures { result ≡ mark_in (words image.now.bytes.now) image.now.shape average.dim average.value (others (words image.now.bytes.now) image.now.shape average.dim average.value lo c) }
{
    if image.shape.kind == 0 || average.dim != 0 {
        return average.value;
    }
    match first_least(image, average.value, lo, c) {
        Some(e) => e as u32,
        None => 0,
    }
}
