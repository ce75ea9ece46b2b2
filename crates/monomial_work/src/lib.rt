// The monomial work on lent bytes, exported to C. Each door asks its questions in document 01's order and demands nothing.
#![tactic(auto)]

ghost use Rattle.std.specs.Prelude.{◌≡◌, ◌*◌, ◌<◌, ◌≤◌, length, Ok};
ghost use Rattle.words.specs.Words.{words, paste_w};
ghost use Rattle.monomial.specs.Monomial.{number as kind_number, Canonical, Starts, first};
ghost use Rattle.refusals.specs.Numbers.{told};
ghost use Rattle.monomial.specs.Operations.{result_words};
ghost use Rattle.monomial_work.specs.Served as spec;
ghost use Rattle.monomial_work.specs.Steps as steps;

use monomial::Kind;
use monomial::ordered_ops::Op;
use refusals::Refusal;
use std::cmp::Ordering;

/// What is asked of two monomials, or of two ratios.
#[derive(Clone, Copy, Debug, PartialEq, Eq)]
pub enum Work {
    Gcd,
    Mul,
    WholeDivision,
    FractionDivision,
    Divides,
    Eq,
    Cmp,
    RatioEq,
    RatioCmp,
}

impl Work {
    // What the two lists lent are.
    fn kind(self) -> Kind
        ensures { kind_number result ≡ spec.lent_kind self }
    {
        match self {
            Work::RatioEq | Work::RatioCmp => Kind::Ratio,
            _ => Kind::Monomial,
        }
    }
}

fn number(c: Ordering) -> u32
    ensures { result ≡ spec.number c }
{
    match c {
        Ordering::Less => 0,
        Ordering::Equal => 1,
        Ordering::Greater => 2,
    }
}

// Writes one answer word, and returns its length in words.
fn put_answer(out: &mut [u8], p: u32) -> usize
    requires { (p < 268435456) × (4 ≤ length out.old) }
    ensures { (result ≡ 1) × (out.new ≡ paste_w out.old 0 (spec.one_answer p)) }
{
    words::put(out, 0, words::answer_word(p));
    1
}

// Writes the quotient, or that there is none, and returns the length in words.
fn quotient(a: &[u8], b: &[u8], out: &mut [u8]) -> usize
    requires starts { Starts 1 4096 (words a.now) }
    requires starts_2 { Starts 1 4096 (words b.now) }
    requires in_bounds { (4 ≤ length out.old) × (4 * length (result_words Op.Quotient (first 1 (words a.now)) (first 1 (words b.now))) ≤ length out.old) }
    ensures { (result ≡ length (spec.answer Work.WholeDivision (first 1 (words a.now)) (first 1 (words b.now)))) × (out.new ≡ paste_w out.old 0 (spec.answer Work.WholeDivision (first 1 (words a.now)) (first 1 (words b.now)))) }
{
    match monomial::whole_division(a, b, out) {
        Some(n) => n,
        None => put_answer(out, 0),
    }
}

// Writes the answer's words, and returns their number. The room asked for holds every answer in at most 64 variables.
fn answer(op: Op, a: &[u8], b: &[u8], out: &mut [u8]) -> usize
    requires canonical { Canonical 1 64 (words a.now) }
    requires canonical_2 { Canonical 1 64 (words b.now) }
    requires in_bounds { 260 ≤ length out.old }
    ensures { (result ≡ length (spec.answer (steps.work_of op) (words a.now) (words b.now))) × (out.new ≡ paste_w out.old 0 (spec.answer (steps.work_of op) (words a.now) (words b.now))) }
{
    match op {
        Op::Gcd => monomial::gcd(a, b, out),
        Op::Product => monomial::mul(a, b, out),
        Op::Quotient => quotient(a, b, out),
        Op::Ratio => monomial::fraction_division(a, b, out),
    }
}

// Whether an answer has a power too large: only a product can.
fn too_large(op: Op, made: &[u8], variables: u32) -> bool
    ensures { result ≡ steps.too_large op variables made.now }
{
    match op {
        Op::Product => !monomial::is_canonical(made, Kind::Monomial, variables),
        Op::Gcd | Op::Quotient | Op::Ratio => false,
    }
}

// Questions 1 and 7 of two lists of a kind.
#[tactic(auto, unfolding(crate::specs::Steps::refusal))]
fn ask(variables: u32, a: &[u8], b: &[u8], kind: Kind) -> Result<(), Refusal>
    ensures { result ≡ steps.refusal (kind_number kind) variables a.now b.now }
{
    if !monomial::sizes::variables_fit(variables as usize) {
        return Err(Refusal::Sizes);
    }
    if monomial::is_canonical(a, kind, variables) && monomial::is_canonical(b, kind, variables) {
        Ok(())
    } else {
        Err(Refusal::BadWords)
    }
}

// An answer that is a monomial or ratio, with questions 9 and 5. It is made aside first, since a refusal changes no byte.
fn make(op: Op, variables: u32, a: &[u8], b: &[u8], out: &mut [u8]) -> Result<(), Refusal>
    requires { Ok tt ≡ steps.refusal 1 variables a.now b.now }
    ensures { spec.Served (steps.work_of op) variables a.now b.now out.old (told result) out.new }
{
    let mut made = [0u8; 260];
    let e = 4 * answer(op, a, b, &mut made);
    if too_large(op, &made[..e], variables) {
        return Err(Refusal::TooLarge);
    }
    if out.len() < e {
        return Err(Refusal::ShortBuffer);
    }
    out[..e].copy_from_slice(&made[..e]);
    Ok(())
}

// An answer that is one word, with question 5.
fn tell(out: &mut [u8], p: u32) -> Result<(), Refusal>
    requires { p < 268435456 }
    ensures { steps.Told p out.old result out.new }
{
    if out.len() < 4 {
        return Err(Refusal::ShortBuffer);
    }
    words::put(out, 0, words::answer_word(p));
    Ok(())
}

/// Writes what is asked to the front of out, or says why not and changes no byte.
pub fn try_serve(w: Work, variables: u32, a: &[u8], b: &[u8], out: &mut [u8]) -> Result<(), Refusal>
    ensures { spec.Served w variables a.now b.now out.old (told result) out.new }
{
    ask(variables, a, b, w.kind())?;
    match w {
        Work::Gcd => make(Op::Gcd, variables, a, b, out),
        Work::Mul => make(Op::Product, variables, a, b, out),
        Work::WholeDivision => make(Op::Quotient, variables, a, b, out),
        Work::FractionDivision => make(Op::Ratio, variables, a, b, out),
        Work::Divides => tell(out, u32::from(monomial::divides(a, b))),
        Work::Eq => tell(out, u32::from(monomial::eq(a, b))),
        Work::RatioEq => tell(out, u32::from(monomial::eq(a, b))),
        Work::Cmp => tell(out, number(monomial_ordering::ord(a, b, Kind::Monomial))),
        Work::RatioCmp => tell(out, number(monomial_ordering::ord(a, b, Kind::Ratio))),
    }
}

/// `try_serve`, with the number that C is told.
pub fn serve(w: Work, variables: u32, a: &[u8], b: &[u8], out: &mut [u8]) -> u32
    ensures { spec.Served w variables a.now b.now out.old result out.new }
{
    refusals::told(try_serve(w, variables, a, b, out))
}

// The greatest common divisor.
#[unsafe(no_mangle)]
pub extern "C" fn divisor_index_monomial_gcd(
    variables: u32,
    a: &[u8],
    b: &[u8],
    out: &mut [u8],
) -> u32
    ensures { spec.Served Work.Gcd variables a.now b.now out.old result out.new }
{
    serve(Work::Gcd, variables, a, b, out)
}

// The product; 9 where a power is above 32,767.
#[unsafe(no_mangle)]
pub extern "C" fn divisor_index_monomial_mul(
    variables: u32,
    a: &[u8],
    b: &[u8],
    out: &mut [u8],
) -> u32
    ensures { spec.Served Work.Mul variables a.now b.now out.old result out.new }
{
    serve(Work::Mul, variables, a, b, out)
}

// The quotient a / b, or a kind 4 word with payload 0 where b does not divide a.
#[unsafe(no_mangle)]
pub extern "C" fn divisor_index_monomial_whole_division(
    variables: u32,
    a: &[u8],
    b: &[u8],
    out: &mut [u8],
) -> u32
    ensures { spec.Served Work.WholeDivision variables a.now b.now out.old result out.new }
{
    serve(Work::WholeDivision, variables, a, b, out)
}

// The ratio a / b.
#[unsafe(no_mangle)]
pub extern "C" fn divisor_index_monomial_fraction_division(
    variables: u32,
    a: &[u8],
    b: &[u8],
    out: &mut [u8],
) -> u32
    ensures { spec.Served Work.FractionDivision variables a.now b.now out.old result out.new }
{
    serve(Work::FractionDivision, variables, a, b, out)
}

// Whether a divides b.
#[unsafe(no_mangle)]
pub extern "C" fn divisor_index_monomial_divides(
    variables: u32,
    a: &[u8],
    b: &[u8],
    out: &mut [u8],
) -> u32
    ensures { spec.Served Work.Divides variables a.now b.now out.old result out.new }
{
    serve(Work::Divides, variables, a, b, out)
}

// Whether two monomials are equal.
#[unsafe(no_mangle)]
pub extern "C" fn divisor_index_monomial_eq(
    variables: u32,
    a: &[u8],
    b: &[u8],
    out: &mut [u8],
) -> u32
    ensures { spec.Served Work.Eq variables a.now b.now out.old result out.new }
{
    serve(Work::Eq, variables, a, b, out)
}

// How two monomials compare: less 0, equal 1, greater 2.
#[unsafe(no_mangle)]
pub extern "C" fn divisor_index_monomial_cmp(
    variables: u32,
    a: &[u8],
    b: &[u8],
    out: &mut [u8],
) -> u32
    ensures { spec.Served Work.Cmp variables a.now b.now out.old result out.new }
{
    serve(Work::Cmp, variables, a, b, out)
}

// Whether two ratios are equal.
#[unsafe(no_mangle)]
pub extern "C" fn divisor_index_ratio_eq(variables: u32, a: &[u8], b: &[u8], out: &mut [u8]) -> u32
    ensures { spec.Served Work.RatioEq variables a.now b.now out.old result out.new }
{
    serve(Work::RatioEq, variables, a, b, out)
}

// How two ratios compare.
#[unsafe(no_mangle)]
pub extern "C" fn divisor_index_ratio_cmp(variables: u32, a: &[u8], b: &[u8], out: &mut [u8]) -> u32
    ensures { spec.Served Work.RatioCmp variables a.now b.now out.old result out.new }
{
    serve(Work::RatioCmp, variables, a, b, out)
}
