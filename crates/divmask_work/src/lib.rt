// The mask and growth work, exported to C. A door asks its questions in document 01's order and returns 0 or the number of the refusal
// of the first whose reply is no, which changes no byte.
#![tactic(auto)]

ghost use Rattle.std.specs.Prelude.{◌≡◌, cond, Ok, Err};
ghost use Rattle.divmask.specs.Mask.{tested};
ghost use Rattle.refusals.specs.Numbers.{told};
ghost use Rattle.divmask_work.specs.Doors as spec;

use divmask::{DivMap, DivMaskTestResult, tracker};
use monomial::Kind;
use refusals::Refusal;

// The refusal of a question whose reply is no.
fn ask(reply: bool, refusal: Refusal) -> Result<(), Refusal>
    ensures { result ≡ cond reply (Ok tt) (Err refusal) }
{
    if reply { Ok(()) } else { Err(refusal) }
}

// Writes the mask of a monomial at the front of out, as a bare word.
fn mask(variables: u32, maxima: &[u8], monomial: &[u8], out: &mut [u8]) -> Result<(), Refusal>
    ensures value { told result ≡ spec.mask_number variables maxima.now monomial.now out.old }
    ensures out_after { out.new ≡ spec.mask_bytes variables maxima.now monomial.now out.old }
{
    ask(tracker::maxima_good(maxima, variables), Refusal::Sizes)?;
    ask(
        monomial::is_canonical(monomial, Kind::Monomial, variables),
        Refusal::BadWords,
    )?;
    ask(out.len() >= 4, Refusal::ShortBuffer)?;
    let map = DivMap { maxima, variables };
    words::put(out, 0, map.map(monomial));
    Ok(())
}

#[unsafe(no_mangle)]
pub extern "C" fn divisor_index_divmask_mask(
    variables: u32,
    maxima: &[u8],
    monomial: &[u8],
    out: &mut [u8],
) -> u32
    ensures value { result ≡ spec.mask_number variables maxima.now monomial.now out.old }
    ensures out_after { out.new ≡ spec.mask_bytes variables maxima.now monomial.now out.old }
{
    refusals::told(mask(variables, maxima, monomial, out))
}

// The mask test of two masks: 0 not divisible, 1 unsure.
#[unsafe(no_mangle)]
pub extern "C" fn divisor_index_divmask_divides(a: u32, b: u32) -> u32
    ensures { result ≡ spec.test_number (tested a b) }
{
    match divmask::divides(a, b) {
        DivMaskTestResult::NotDivisible => 0,
        DivMaskTestResult::Unsure => 1,
    }
}

// Raises the lent maxima to the powers of a monomial.
fn update(variables: u32, maxima: &mut [u8], monomial: &[u8]) -> Result<(), Refusal>
    ensures value { told result ≡ spec.update_number variables maxima.old monomial.now }
    ensures maxima_after { maxima.new ≡ spec.update_bytes variables maxima.old monomial.now }
{
    ask(tracker::maxima_good(maxima, variables), Refusal::Sizes)?;
    ask(
        monomial::is_canonical(monomial, Kind::Monomial, variables),
        Refusal::BadWords,
    )?;
    tracker::update(maxima, variables, monomial);
    Ok(())
}

#[unsafe(no_mangle)]
pub extern "C" fn divisor_index_divmask_update(
    variables: u32,
    maxima: &mut [u8],
    monomial: &[u8],
) -> u32
    ensures value { result ≡ spec.update_number variables maxima.old monomial.now }
    ensures maxima_after { maxima.new ≡ spec.update_bytes variables maxima.old monomial.now }
{
    refusals::told(update(variables, maxima, monomial))
}

// Writes at the front of out whether the maxima have grown beyond a percentage, yes 1 or no 0.
fn growth(variables: u32, maxima: &[u8], percentage: u8, out: &mut [u8]) -> Result<(), Refusal>
    ensures value { told result ≡ spec.growth_number variables maxima.now out.old }
    ensures out_after { out.new ≡ spec.growth_bytes variables maxima.now percentage out.old }
{
    ask(tracker::maxima_good(maxima, variables), Refusal::Sizes)?;
    ask(out.len() >= 4, Refusal::ShortBuffer)?;
    let grown = tracker::has_grown_beyond_percentage(maxima, variables, percentage);
    words::put(out, 0, words::answer_word(u32::from(grown)));
    Ok(())
}

#[unsafe(no_mangle)]
pub extern "C" fn divisor_index_divmask_growth(
    variables: u32,
    maxima: &[u8],
    percentage: u8,
    out: &mut [u8],
) -> u32
    ensures value { result ≡ spec.growth_number variables maxima.now out.old }
    ensures out_after { out.new ≡ spec.growth_bytes variables maxima.now percentage out.old }
{
    refusals::told(growth(variables, maxima, percentage, out))
}
