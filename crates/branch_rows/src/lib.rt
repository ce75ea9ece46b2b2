// The row of a branch: whether it has a dimension and a key, what bounds these give its sides, and whether it stands over the rows of both.
#![tactic(auto)]

ghost use Rattle.std.specs.Prelude.{◌≡◌, true, ◌↔◌, min, max, ◌+◌, ◌*◌, ◌≤◌, length};
ghost use Rattle.words.specs.Words.{words};
ghost use Rattle.monomial.specs.Operations.{result_words};
ghost use Rattle.monomial.specs.declared.ordered_ops.Op.TheVariants.{Gcd};
ghost use Rattle.index_image.specs.Shape as shape;
ghost use Rattle.index_image.specs.Rows.{monomial_in, NodeOk};
ghost use Rattle.leaf_rows.specs.Leaves.{Uppers};
ghost use Rattle.branch_rows.specs.Branches.{KeyIn, Cut, Slots, OtherOk, BranchOk};

use index_image::image::ReadyImage;
use index_image::{Shape, fields, stored};
use monomial::Kind;
use std::ops::Range;

// The labels of a side, from `start` up to `end`. A `Range` can't be copied, as the bounds of a branch can.
#[derive(Clone, Copy)]
pub struct Labels {
    pub start: u64,
    pub end: u64,
}

// The bounds of a branch's sides: on the less side variable `variable` is below `power` and labels are among `less`,
// on the other side labels are among `other`.
#[derive(Clone, Copy)]
pub struct Limits {
    pub variable: usize,
    pub power: u32,
    pub less: Labels,
    pub other: Labels,
}

// Whether the row at word `at` has a branch's dimension and key, and entries for two sides. It takes bytes and numbers, and no `Image`, which would
// ask for the room of all tables too.
pub fn key_ok(image: &[u8], s: Shape, at: usize) -> bool
    requires in_range { shape.InRange s }
    requires at_in_bounds { 4 * shape.skip_at at ≤ length image.now }
    ensures { (result ≡ true) ↔ KeyIn (words image.now) s at }
{
    let tag = words::get(image, at) as usize;
    let key = words::get(image, at + fields::KEY) as usize;
    2 <= words::get(image, at + fields::COUNT)
        && 1 <= tag
        && tag <= s.variables + s.kind
        && if tag == s.kind {
            key < s.entries
        } else {
            1 <= key
        }
}

// The bounds of the two sides of the branch at word `at`.
pub fn sides(image: &ReadyImage<'_>, hi: &[u8], labels: Range<u64>, at: usize) -> Limits
    requires uppers { Uppers image.now.shape.variables hi.now }
    requires at_in_bounds { 4 * shape.skip_at at ≤ length image.now.bytes.now }
    requires key_in { KeyIn (words image.now.bytes.now) image.now.shape at }
    ensures { Cut (words image.now.bytes.now) image.now.shape (words hi.now) labels.start labels.end at result }
{
    let kind = image.shape.kind;
    let tag = words::get(image.bytes, at) as usize;
    let key = words::get(image.bytes, at + fields::KEY);
    if tag == kind {
        let l = image.label(key as usize);
        return Limits {
            variable: 0,
            power: words::get(hi, 0),
            less: Labels {
                start: labels.start,
                end: l.min(labels.end),
            },
            other: Labels {
                start: l.max(labels.start),
                end: labels.end,
            },
        };
    }
    let v = tag - 1 - kind;
    let all = Labels {
        start: labels.start,
        end: labels.end,
    };
    Limits {
        variable: v,
        power: key.min(words::get(hi, v)),
        less: all,
        other: all,
    }
}

// Whether the row at word `at` has the gcd of those at words a and b, and its mask.
fn branch_gcd_ok(image: &ReadyImage<'_>, at: usize, a: usize, b: usize) -> bool
    requires variables_in_bounds { 4 * (at + shape.node_width image.now.shape.variables) ≤ length image.now.bytes.now }
    requires slots { Slots (words image.now.bytes.now) image.now.shape.variables a b }
    requires a_in_bounds { (4 * shape.gcd_at a + 4 ≤ length image.now.bytes.now) × (4 * shape.gcd_at b + 4 ≤ length image.now.bytes.now) }
    ensures { (result ≡ true) ↔ NodeOk (words image.now.bytes.now) image.now.shape at (result_words Gcd (monomial_in (words image.now.bytes.now) image.now.shape.variables (shape.gcd_at a)) (monomial_in (words image.now.bytes.now) image.now.shape.variables (shape.gcd_at b))) }
{
    let s = image.shape;
    // room for the most variables that an index may have, since there is no heap
    let mut made = [0u8; 260];
    let e = 4
        * monomial::gcd(
            stored::monomial_in(image.bytes, s, a + fields::GCD),
            stored::monomial_in(image.bytes, s, b + fields::GCD),
            &mut made,
        );
    leaf_rows::node_ok(image, at, &made[..e])
}

// Whether no power on the other side, whose row is at word b, is below the key of a variable.
fn other_ok(image: &ReadyImage<'_>, at: usize, b: usize) -> bool
    requires at_in_bounds { 4 * shape.skip_at at ≤ length image.now.bytes.now }
    requires key_in { KeyIn (words image.now.bytes.now) image.now.shape at }
    requires slots { Slots (words image.now.bytes.now) image.now.shape.variables b b }
    requires b_in_bounds { 4 * shape.gcd_at b + 4 ≤ length image.now.bytes.now }
    ensures { (result ≡ true) ↔ OtherOk (words image.now.bytes.now) image.now.shape at b }
{
    let s = image.shape;
    let tag = words::get(image.bytes, at) as usize;
    // the key of a ratio bounds the labels on the other side, which the walk holds each entry against
    if tag == s.kind {
        return true;
    }
    let v = tag - 1 - s.kind;
    let gcd = stored::monomial_in(image.bytes, s, b + fields::GCD);
    let p = monomial::power_of(gcd, Kind::Monomial, v as u32);
    words::get(image.bytes, at + fields::KEY) <= p
}

// Whether the row at word `at` is that of a branch over those at words a and b, the first of t rows.
pub fn branch_ok(image: &ReadyImage<'_>, at: usize, a: usize, b: usize, t: usize) -> bool
    requires variables_in_bounds { 4 * (at + shape.node_width image.now.shape.variables) ≤ length image.now.bytes.now }
    requires a_in_bounds { (4 * shape.gcd_at a + 4 ≤ length image.now.bytes.now) × (4 * shape.gcd_at b + 4 ≤ length image.now.bytes.now) }
    requires key_in { KeyIn (words image.now.bytes.now) image.now.shape at }
    requires slots { Slots (words image.now.bytes.now) image.now.shape.variables a b }
    ensures { (result ≡ true) ↔ BranchOk (words image.now.bytes.now) image.now.shape at a b t }
{
    let less = u64::from(words::get(image.bytes, a + fields::COUNT));
    let other = u64::from(words::get(image.bytes, b + fields::COUNT));
    0 < less
        && 0 < other
        && u64::from(words::get(image.bytes, at + fields::COUNT)) == less + other
        && words::get(image.bytes, at + fields::SKIP) as usize == t
        && other_ok(image, at, b)
        && branch_gcd_ok(image, at, a, b)
}
