// The monomial work.
ghost use Rattle.monomial_work.specs.Served as spec;

use monomial_work::Work;

// The greatest common divisor.
#[unsafe(no_mangle)]
pub extern "C" fn divisor_index_monomial_gcd(
    variables: u32,
    a: &[u8],
    b: &[u8],
    out: &mut [u8],
) -> u32
    ensures { spec.Served Work.Gcd variables a.now b.now out.old result out.new }
{
    monomial_work::divisor_index_monomial_gcd(variables, a, b, out)
}

// The product; 9 where a power is above 32,767.
#[unsafe(no_mangle)]
pub extern "C" fn divisor_index_monomial_mul(
    variables: u32,
    a: &[u8],
    b: &[u8],
    out: &mut [u8],
) -> u32
    ensures { spec.Served Work.Mul variables a.now b.now out.old result out.new }
{
    monomial_work::divisor_index_monomial_mul(variables, a, b, out)
}

// The quotient a / b, or a kind 4 word with payload 0 where b does not divide a.
#[unsafe(no_mangle)]
pub extern "C" fn divisor_index_monomial_whole_division(
    variables: u32,
    a: &[u8],
    b: &[u8],
    out: &mut [u8],
) -> u32
    ensures { spec.Served Work.WholeDivision variables a.now b.now out.old result out.new }
{
    monomial_work::divisor_index_monomial_whole_division(variables, a, b, out)
}

// The ratio a / b.
#[unsafe(no_mangle)]
pub extern "C" fn divisor_index_monomial_fraction_division(
    variables: u32,
    a: &[u8],
    b: &[u8],
    out: &mut [u8],
) -> u32
    ensures { spec.Served Work.FractionDivision variables a.now b.now out.old result out.new }
{
    monomial_work::divisor_index_monomial_fraction_division(variables, a, b, out)
}

// Whether a divides b.
#[unsafe(no_mangle)]
pub extern "C" fn divisor_index_monomial_divides(
    variables: u32,
    a: &[u8],
    b: &[u8],
    out: &mut [u8],
) -> u32
    ensures { spec.Served Work.Divides variables a.now b.now out.old result out.new }
{
    monomial_work::divisor_index_monomial_divides(variables, a, b, out)
}

// Whether two monomials are equal.
#[unsafe(no_mangle)]
pub extern "C" fn divisor_index_monomial_eq(
    variables: u32,
    a: &[u8],
    b: &[u8],
    out: &mut [u8],
) -> u32
    ensures { spec.Served Work.Eq variables a.now b.now out.old result out.new }
{
    monomial_work::divisor_index_monomial_eq(variables, a, b, out)
}

// How two monomials compare: less 0, equal 1, greater 2.
#[unsafe(no_mangle)]
pub extern "C" fn divisor_index_monomial_cmp(
    variables: u32,
    a: &[u8],
    b: &[u8],
    out: &mut [u8],
) -> u32
    ensures { spec.Served Work.Cmp variables a.now b.now out.old result out.new }
{
    monomial_work::divisor_index_monomial_cmp(variables, a, b, out)
}

// Whether two ratios are equal.
#[unsafe(no_mangle)]
pub extern "C" fn divisor_index_ratio_eq(variables: u32, a: &[u8], b: &[u8], out: &mut [u8]) -> u32
    ensures { spec.Served Work.RatioEq variables a.now b.now out.old result out.new }
{
    monomial_work::divisor_index_ratio_eq(variables, a, b, out)
}

// How two ratios compare.
#[unsafe(no_mangle)]
pub extern "C" fn divisor_index_ratio_cmp(variables: u32, a: &[u8], b: &[u8], out: &mut [u8]) -> u32
    ensures { spec.Served Work.RatioCmp variables a.now b.now out.old result out.new }
{
    monomial_work::divisor_index_ratio_cmp(variables, a, b, out)
}
