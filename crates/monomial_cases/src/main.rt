// Runs the monomial work at its limits, and writes each number returned and the answer buffer after it.
#![tactic(auto)]

ghost use Rattle.std.specs.Prelude.{◌≤◌, length};

use monomial_work::Work;
use program_io::monomial;
use std::alloc::Global;
use std::io;
use words::{end_word, ratio_word, var_word, variable_word};

// The monomial one.
const ONE: [u8; 4] = [0; 4];

// One case: the number, then the four words of the buffer, of which `room` bytes were lent. They begin as EE.
fn run(
    rt: &impl Print,
    work: Work,
    variables: u32,
    a: &[u8],
    b: &[u8],
    room: usize,
) -> io::Result<()>
    requires { room ≤ 16 }
{
    let mut out = [0xEE; 16];
    let number = monomial_work::serve(work, variables, a, b, &mut out[..room]);
    print!(rt; "{number}")?;
    for word in out.chunks_exact(4) {
        print!(rt; " {:08x}", words::get(word, 0))?;
    }
    println!(rt;)
}

// The gcd of a and one: 0 where a is canonical, 7 where it is not.
fn canonical(rt: &impl Print, variables: u32, a: &[u8]) -> io::Result<()> {
    run(rt, Work::Gcd, variables, a, &ONE, 16)
}

fn canonical_powers(
    rt: &impl Print,
    alloc: Global,
    variables: u32,
    powers: &[(u8, u16)],
) -> io::Result<()>
    requires { length powers.now ≤ 64 }
{
    let a = monomial(alloc, powers)?;
    canonical(rt, variables, a.as_slice())
}

fn canonical_words(rt: &impl Print, alloc: Global, variables: u32, list: &[u32]) -> io::Result<()> {
    let a = program_io::bytes_of(alloc, list)?;
    canonical(rt, variables, a.as_slice())
}

fn operations(rt: &impl Print, alloc: Global) -> io::Result<()> {
    let a = monomial(alloc, &[(3, 2), (0, 1)])?;
    let b = monomial(alloc, &[(3, 1), (1, 1)])?;
    let c = monomial(alloc, &[(3, 1)])?;
    let (a, b, c) = (a.as_slice(), b.as_slice(), c.as_slice());
    for (work, x, y) in [
        (Work::Gcd, a, b),
        (Work::Mul, a, b),
        (Work::WholeDivision, a, b),
        (Work::WholeDivision, a, c),
        (Work::FractionDivision, a, b),
        (Work::Divides, a, b),
        (Work::Divides, c, a),
        (Work::Eq, a, b),
        (Work::Eq, a, a),
        (Work::Cmp, a, b),
        (Work::Cmp, b, a),
        (Work::Cmp, a, a),
    ] {
        run(rt, work, 4, x, y, 16)?;
    }
    Ok(())
}

// x1^2 / (x1^2 · x0) is x0^-1, which is below one; x1^2 is above x1 · x0.
fn bench(rt: &impl Print, alloc: Global) -> io::Result<()> {
    let a = monomial(alloc, &[(1, 2)])?;
    let b = monomial(alloc, &[(1, 2), (0, 1)])?;
    let c = monomial(alloc, &[(1, 1), (0, 1)])?;
    let ratio = program_io::bytes_of(alloc, &[ratio_word(0, 32767), end_word(1)])?;
    for (work, x, y) in [
        (Work::FractionDivision, a.as_slice(), b.as_slice()),
        (Work::RatioCmp, ratio.as_slice(), ONE.as_slice()),
        (Work::RatioEq, ratio.as_slice(), ONE.as_slice()),
        (Work::Cmp, a.as_slice(), c.as_slice()),
    ] {
        run(rt, work, 2, x, y, 16)?;
    }
    Ok(())
}

// Power 32,767 and 32,768; powers that sum to 32,767 and past it.
fn powers(rt: &impl Print, alloc: Global) -> io::Result<()> {
    for power in [32767, 32768, 0] {
        canonical_powers(rt, alloc, 1, &[(0, power)])?;
    }
    let x = monomial(alloc, &[(0, 1)])?;
    for power in [32766, 32767] {
        let a = monomial(alloc, &[(0, power)])?;
        run(rt, Work::Mul, 1, a.as_slice(), x.as_slice(), 16)?;
    }
    Ok(())
}

// Zero length, three bytes, a missing end word, a wrong count, a word and a byte behind the end.
fn lengths(rt: &impl Print, alloc: Global) -> io::Result<()> {
    canonical(rt, 4, &[])?;
    canonical(rt, 4, &[0; 3])?;
    let x = variable_word(0, 1);
    canonical_words(rt, alloc, 4, &[x])?;
    canonical_words(rt, alloc, 4, &[x, end_word(2)])?;
    canonical(rt, 4, &[0; 8])?;
    let mut a = program_io::bytes_of(alloc, &[x, end_word(1)])?;
    a.push(0)?;
    canonical(rt, 4, a.as_slice())
}

// Ids equal, rising, at the variable count and below it.
fn ids(rt: &impl Print, alloc: Global) -> io::Result<()> {
    canonical_powers(rt, alloc, 4, &[(1, 1), (1, 1)])?;
    canonical_powers(rt, alloc, 4, &[(0, 1), (1, 1)])?;
    canonical_powers(rt, alloc, 4, &[(4, 1)])?;
    canonical_powers(rt, alloc, 4, &[(3, 1)])
}

// A first word of each kind from 2 to 15.
fn kinds(rt: &impl Print, alloc: Global) -> io::Result<()> {
    for kind in 2..16 {
        canonical_words(rt, alloc, 4, &[var_word(kind, 0, 1), end_word(1)])?;
    }
    Ok(())
}

// A buffer one byte short and just long enough; 0, 1, 64 and 65 variables.
fn limits(rt: &impl Print, alloc: Global) -> io::Result<()> {
    run(rt, Work::Eq, 4, &ONE, &ONE, 3)?;
    run(rt, Work::Eq, 4, &ONE, &ONE, 4)?;
    let a = monomial(alloc, &[(3, 1)])?;
    let b = monomial(alloc, &[(2, 1)])?;
    run(rt, Work::Mul, 4, a.as_slice(), b.as_slice(), 11)?;
    run(rt, Work::Mul, 4, a.as_slice(), b.as_slice(), 12)?;
    canonical(rt, 0, &ONE)?;
    canonical(rt, 1, &ONE)?;
    canonical_powers(rt, alloc, 64, &[(63, 1)])?;
    canonical(rt, 65, &ONE)
}

fn main(rt: HostRuntime) -> io::Result<()> {
    let alloc = rt.alloc();
    operations(&rt, alloc)?;
    bench(&rt, alloc)?;
    powers(&rt, alloc)?;
    lengths(&rt, alloc)?;
    ids(&rt, alloc)?;
    kinds(&rt, alloc)?;
    limits(&rt, alloc)
}
