// The mask and growth work.
ghost use Rattle.std.specs.Prelude.{◌≡◌};
ghost use Rattle.divmask.specs.Mask.{tested};
ghost use Rattle.divmask_work.specs.Doors as spec;

// Writes the mask of a monomial at the front of out, as a bare word.
#[unsafe(no_mangle)]
pub extern "C" fn divisor_index_divmask_mask(
    variables: u32,
    maxima: &[u8],
    monomial: &[u8],
    out: &mut [u8],
) -> u32
    ensures value { result ≡ spec.mask_number variables maxima.now monomial.now out.old }
    ensures out_after { out.new ≡ spec.mask_bytes variables maxima.now monomial.now out.old }
{
    divmask_work::divisor_index_divmask_mask(variables, maxima, monomial, out)
}

// The mask test of two masks: 0 not divisible, 1 unsure.
#[unsafe(no_mangle)]
pub extern "C" fn divisor_index_divmask_divides(a: u32, b: u32) -> u32
    ensures { result ≡ spec.test_number (tested a b) }
{
    divmask_work::divisor_index_divmask_divides(a, b)
}

// Raises the lent maxima to the powers of a monomial.
#[unsafe(no_mangle)]
pub extern "C" fn divisor_index_divmask_update(
    variables: u32,
    maxima: &mut [u8],
    monomial: &[u8],
) -> u32
    ensures value { result ≡ spec.update_number variables maxima.old monomial.now }
    ensures maxima_after { maxima.new ≡ spec.update_bytes variables maxima.old monomial.now }
{
    divmask_work::divisor_index_divmask_update(variables, maxima, monomial)
}

// Writes at the front of out whether the maxima have grown beyond a percentage, yes 1 or no 0.
#[unsafe(no_mangle)]
pub extern "C" fn divisor_index_divmask_growth(
    variables: u32,
    maxima: &[u8],
    percentage: u8,
    out: &mut [u8],
) -> u32
    ensures value { result ≡ spec.growth_number variables maxima.now out.old }
    ensures out_after { out.new ≡ spec.growth_bytes variables maxima.now percentage out.old }
{
    divmask_work::divisor_index_divmask_growth(variables, maxima, percentage, out)
}
