// The doors of a label map lent alone. No answer here goes through a buffer: C gets one number.
#![tactic(auto)]

ghost use Rattle.std.specs.Prelude.{◌≡◌, ℕ, Ok, Err, cond, ◌*◌, ◌<◌, length};
ghost use Rattle.monomial.specs.Sizes.{sizes_fit};
ghost use Rattle.fast_compare.specs.Layout.{size};
ghost use Rattle.refusals.specs.declared.Refusal.TheVariants.{Sizes};
ghost use Rattle.refusals.specs.Numbers as refusals;
ghost use Rattle.label_work.specs.Door as Door;

use fast_compare::{Comparer, Unlabelled};
use monomial::Kind;
use refusals::Refusal;

// The label that a value got, or what refuses it.
#[tactic(auto, unfolding(crate::specs::Door::told))]
fn told(c: Result<Comparer, Unlabelled>) -> Result<u32, Refusal>
    ensures { result ≡ Door.told c }
{
    match c {
        Ok(Comparer::Known(label) | Comparer::New(label)) => Ok(label),
        Err(u) => Err(Refusal::from(u)),
    }
}

// Questions 3, 7, 8 and 10, in this order. An index has 28 bits.
pub fn ask(image: &mut [u8], index: u32, ratio: &[u8]) -> Result<u32, Refusal>
    ensures { Door.Asking index ratio.now result image.old image.new }
{
    if !label_sound::sound(image) {
        return Err(Refusal::Unsound);
    }
    if 268435455 < index || !monomial::is_canonical(ratio, Kind::Ratio, words::get(image, 1)) {
        return Err(Refusal::BadWords);
    }
    told(label_insert::get_comparer(image, index, ratio))
}

// The number of an answer: a label, or a refusal's number in the upper half.
#[tactic(auto, unfolding(crate::specs::Door::number))]
fn number(a: Result<u32, Refusal>) -> u64
    ensures value { result ≡ Door.number a }
    ensures by_index { (x : ℕ) → a ≡ Ok x → result < 4294967296 }
{
    match a {
        Ok(x) => u64::from(x),
        Err(r) => u64::from(refusals::number(r)) * 4294967296,
    }
}

// Question 1; the length of a map's image in bytes.
fn length(variables: u32, capacity: u32) -> Result<usize, Refusal>
    ensures { result ≡ cond (sizes_fit variables capacity) (Ok (4 * size variables capacity)) (Err Sizes) }
{
    if !monomial::sizes::sizes_fit(variables as usize, capacity as usize) {
        return Err(Refusal::Sizes);
    }
    Ok(fast_compare::length(variables as usize, capacity as usize))
}

// The length of a map's image in bytes, which is above 16; or 1, for question 1: C gets both as one number.
#[unsafe(no_mangle)]
pub extern "C" fn divisor_index_fast_compare_length(variables: u32, capacity: u32) -> u32
    ensures { result ≡ Door.length_for variables capacity }
{
    match length(variables, capacity) {
        Ok(n) => n as u32,
        Err(r) => refusals::number(r),
    }
}

// Questions 1 and 2; writes an empty map.
fn open(variables: u32, capacity: u32, image: &mut [u8]) -> Result<(), Refusal>
    ensures { (refusals.told result ≡ Door.opening_for variables capacity (length image.old)) × (image.new ≡ Door.opened_bytes variables capacity image.old) }
{
    if image.len() < length(variables, capacity)? {
        return Err(Refusal::ShortImage);
    }
    fast_compare::open(image, variables as usize, capacity as usize);
    Ok(())
}

// Writes an empty map; 0, or the number of the question that says no.
#[unsafe(no_mangle)]
pub extern "C" fn divisor_index_fast_compare_open(
    variables: u32,
    capacity: u32,
    image: &mut [u8],
) -> u32
    ensures { (result ≡ Door.opening_for variables capacity (length image.old)) × (image.new ≡ Door.opened_bytes variables capacity image.old) }
{
    refusals::told(open(variables, capacity, image))
}

// The label of a value, which is stored where it is new; or a refusal's number in the upper half.
#[unsafe(no_mangle)]
#[tactic(auto, using(crate::proofs::Replies::replied))]
pub extern "C" fn divisor_index_fast_compare_get_comparer(
    image: &mut [u8],
    index: u32,
    ratio: &[u8],
) -> u64
    ensures { Door.Replied index ratio.now result image.old image.new }
{
    number(ask(image, index, ratio))
}

// Question 3; spaces the labels evenly.
#[tactic(auto, unfolding(refusals::specs::Numbers::told, refusals::specs::Numbers::number))]
fn rebuild(image: &mut [u8]) -> Result<(), Refusal>
    ensures { Door.Rebuilt (refusals.told result) image.old image.new }
{
    if !label_sound::sound(image) {
        return Err(Refusal::Unsound);
    }
    label_insert::rebuild(image);
    Ok(())
}

// Spaces the labels evenly; 0, or 3.
#[unsafe(no_mangle)]
pub extern "C" fn divisor_index_fast_compare_rebuild(image: &mut [u8]) -> u32
    ensures { Door.Rebuilt result image.old image.new }
{
    refusals::told(rebuild(image))
}
