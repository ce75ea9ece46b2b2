// Runs masks and maxima through the doors, document 01's cases and the limits of each question, and writes a line for each:
// its name, the number returned, and the words after, in hex. Bytes that a refusal left alone are aa.
#![tactic(auto)]

ghost use Rattle.std.specs.Prelude.{◌≤◌, length};

use std::alloc::{AllocError, Global};
use std::io;

// A case's line. Bytes that make no word are shown as they stand.
fn show(rt: &impl Print, name: &str, number: u32, after: &[u8]) -> io::Result<()> {
    print!(rt; "{name}: {number:08x}")?;
    for bytes in after.chunks(4) {
        print!(rt; " ")?;
        match program_io::word_at(bytes, 0) {
            Some(word) => print!(rt; "{word:08x}")?,
            None => show_bytes(rt, bytes)?,
        }
    }
    println!(rt;)
}

fn show_bytes(rt: &impl Print, bytes: &[u8]) -> io::Result<()> {
    for byte in bytes {
        print!(rt; "{byte:02x}")?;
    }
    Ok(())
}

// The mask of a monomial, in a buffer of `room` bytes.
fn mask(
    rt: &impl Print,
    alloc: Global,
    name: &str,
    variables: u32,
    maxima: &[u8],
    monomial: &[u8],
    room: usize,
) -> io::Result<()> {
    let mut out = vec![in alloc; 0xAA; room]?;
    let number = divmask_work::divisor_index_divmask_mask(
        variables,
        maxima,
        monomial,
        out.as_mut_slice(),
    );
    show(rt, name, number, out.as_slice())
}

// The first n bytes of maxima that are all x.
fn all(alloc: Global, x: u32, n: usize) -> Result<Vec<u8>, AllocError> {
    let words = vec![in alloc; x; 65]?;
    let mut maxima = program_io::bytes_of(alloc, words.as_slice())?;
    maxima.truncate(n);
    Ok(maxima)
}

// A variable count, how many bytes of maxima are lent and what each maximum is, and the variable whose power is asked about.
type Single = (&'static str, u32, usize, u32, (u8, u16));

fn singles(rt: &impl Print, alloc: Global, cases: &[Single]) -> io::Result<()> {
    for (name, variables, bytes, x, power) in cases {
        let maxima = all(alloc, *x, *bytes)?;
        let monomial = program_io::monomial(alloc, &[*power])?;
        mask(
            rt,
            alloc,
            name,
            *variables,
            maxima.as_slice(),
            monomial.as_slice(),
            4,
        )?;
    }
    Ok(())
}

// Document 01's masks, then 64 variables.
fn masks(rt: &impl Print, alloc: Global) -> io::Result<()> {
    let cases = [
        ("1 variable, maximum 33, power 1", 1, 4, 33, (0, 1)),
        ("1 variable, maximum 33, power 2", 1, 4, 33, (0, 2)),
        ("1 variable, maximum 33, power 32", 1, 4, 33, (0, 32)),
        ("1 variable, maximum 33, power 33", 1, 4, 33, (0, 33)),
        ("3 variables, maxima 1, id 0, power 1", 3, 12, 1, (0, 1)),
        (
            "3 variables, maxima 1, id 0, power 32767",
            3,
            12,
            1,
            (0, 32767),
        ),
        ("3 variables, maxima 1, id 1, power 1", 3, 12, 1, (1, 1)),
        ("3 variables, maxima 1, id 2, power 1", 3, 12, 1, (2, 1)),
        (
            "3 variables, maxima 1, id 2, power 32767",
            3,
            12,
            1,
            (2, 32767),
        ),
        ("33 variables, id 31", 33, 132, 1, (31, 5)),
        ("33 variables, id 32", 33, 132, 1, (32, 5)),
        ("64 variables, id 0", 64, 256, 1, (0, 5)),
        ("64 variables, id 63", 64, 256, 1, (63, 5)),
        ("maximum 32767, power 32767", 1, 4, 32767, (0, 32767)),
    ];
    singles(rt, alloc, &cases)?;
    let maxima = program_io::bytes_of(alloc, &[2, 4])?;
    let monomial = program_io::monomial(alloc, &[(1, 2), (0, 1)])?;
    mask(
        rt,
        alloc,
        "x1^2 x0, maxima 2 4",
        2,
        maxima.as_slice(),
        monomial.as_slice(),
        4,
    )?;
    of_zeros(rt, alloc, "one", 1, 4, 4)
}

// What is asked of n bytes 0 as monomial, with 1 variable and its maximum.
fn of_zeros(
    rt: &impl Print,
    alloc: Global,
    name: &str,
    maximum: u32,
    n: usize,
    room: usize,
) -> io::Result<()> {
    let maxima = program_io::bytes_of(alloc, &[maximum])?;
    let monomial = vec![in alloc; 0; n]?;
    mask(
        rt,
        alloc,
        name,
        1,
        maxima.as_slice(),
        monomial.as_slice(),
        room,
    )
}

fn refusals(rt: &impl Print, alloc: Global) -> io::Result<()> {
    let cases = [
        ("0 variables", 0, 0, 1, (0, 1)),
        ("65 variables", 65, 260, 1, (0, 1)),
        ("maxima a byte short", 64, 255, 1, (0, 1)),
        ("maxima a byte long", 64, 257, 1, (0, 1)),
        ("maximum 0", 1, 4, 0, (0, 1)),
        ("maximum 32768", 1, 4, 32768, (0, 1)),
        ("power 0", 1, 4, 1, (0, 0)),
        ("power 32768", 1, 4, 1, (0, 32768)),
        ("id at the variables", 3, 12, 1, (3, 1)),
    ];
    singles(rt, alloc, &cases)?;
    let maxima = program_io::bytes_of(alloc, &[1])?;
    let open = program_io::bytes_of(alloc, &[words::variable_word(0, 1)])?;
    mask(
        rt,
        alloc,
        "no end word",
        1,
        maxima.as_slice(),
        open.as_slice(),
        4,
    )?;
    for (name, maximum, n, room) in [
        ("no words", 1, 0, 4),
        ("a byte behind the end word", 1, 5, 4),
        ("room for 3 bytes", 1, 4, 3),
        ("room for 3 bytes, bad words", 1, 3, 3),
        ("room for 3 bytes, bad words, bad maxima", 0, 3, 3),
    ] {
        of_zeros(rt, alloc, name, maximum, n, room)?;
    }
    Ok(())
}

// `update` over two maxima.
fn update(
    rt: &impl Print,
    alloc: Global,
    name: &str,
    before: [u32; 2],
    powers: &[(u8, u16)],
) -> io::Result<()>
    requires { length powers.now ≤ 64 }
{
    let mut maxima = program_io::bytes_of(alloc, &before)?;
    let monomial = program_io::monomial(alloc, powers)?;
    let number = divmask_work::divisor_index_divmask_update(
        2,
        maxima.as_mut_slice(),
        monomial.as_slice(),
    );
    show(rt, name, number, maxima.as_slice())
}

fn updates(rt: &impl Print, alloc: Global) -> io::Result<()> {
    let ones = [1, 1];
    update(
        rt,
        alloc,
        "update 1 1 with x1 x0^5",
        ones,
        &[(1, 1), (0, 5)],
    )?;
    update(
        rt,
        alloc,
        "update 1 1 with x1^2 x0^5",
        ones,
        &[(1, 2), (0, 5)],
    )?;
    update(
        rt,
        alloc,
        "update 1 1 with x1^2 x0",
        ones,
        &[(1, 2), (0, 1)],
    )?;
    update(rt, alloc, "update 1 1 with x0^32767", ones, &[(0, 32767)])?;
    update(rt, alloc, "update 1 1 with x0^32768", ones, &[(0, 32768)])?;
    update(rt, alloc, "update 1 0", [1, 0], &[(0, 5)])
}

// Growth of maxima, in a buffer of `room` bytes.
fn growths(rt: &impl Print, alloc: Global) -> io::Result<()> {
    for (name, x, percentage) in [
        ("growth of 1 1 beyond 0", [1, 1], 0),
        ("growth of 2 2 beyond 49", [2, 2], 49),
        ("growth of 2 2 beyond 50", [2, 2], 50),
        ("growth of 32767 32767 beyond 98", [32767, 32767], 98),
        ("growth of 32767 32767 beyond 255", [32767, 32767], 255),
        ("growth of 0 1", [0, 1], 0),
    ] {
        let maxima = program_io::bytes_of(alloc, &x)?;
        growth(rt, alloc, name, 2, maxima.as_slice(), percentage, 4)?;
    }
    let maxima = program_io::bytes_of(alloc, &[1])?;
    growth(
        rt,
        alloc,
        "growth, room for 3 bytes",
        1,
        maxima.as_slice(),
        0,
        3,
    )
}

fn growth(
    rt: &impl Print,
    alloc: Global,
    name: &str,
    variables: u32,
    maxima: &[u8],
    percentage: u8,
    room: usize,
) -> io::Result<()> {
    let mut out = vec![in alloc; 0xAA; room]?;
    let number = divmask_work::divisor_index_divmask_growth(
        variables,
        maxima,
        percentage,
        out.as_mut_slice(),
    );
    show(rt, name, number, out.as_slice())
}

fn tests(rt: &impl Print) -> io::Result<()> {
    for (a, b) in [
        (0x7ff, 0xffe),
        (0x7ff, 0x7ff),
        (0, 0),
        (0x80000000, 0xffffffff),
        (0xffffffff, 0x7fffffff),
    ] {
        let number = divmask_work::divisor_index_divmask_divides(a, b);
        println!(rt; "test {a:x} in {b:x}: {number:08x}")?;
    }
    Ok(())
}

fn main(rt: HostRuntime) -> io::Result<()> {
    let alloc = rt.alloc();
    masks(&rt, alloc)?;
    refusals(&rt, alloc)?;
    updates(&rt, alloc)?;
    growths(&rt, alloc)?;
    tests(&rt)
}
