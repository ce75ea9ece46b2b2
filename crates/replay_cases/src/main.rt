// Runs lists of calls at their limits through the doors of the index, each on an index just opened, and writes a line a case: the last answers
// or the refusal of the whole list, and the image's number of nodes.
#![tactic(auto)]

ghost use Rattle.std.specs.Prelude.{◌≤◌, ◌/◌, length};

use index_image::fields;
use std::alloc::{AllocError, Global};
use std::io;
use words::{call_word, end_word, index_word, variable_word};

#[derive(Clone, Copy)]
enum Kind {
    Monomials = 0,
    Ratios = 1,
}

impl Kind {
    // Adds an insert of a power of the variable, with index 0 and leading monomial one in a ratio index.
    fn insert(self, list: &mut Vec<u32>, power: u8) -> Result<(), AllocError> {
        let variable = variable_word(0, u32::from(power));
        match self {
            Kind::Monomials => list.extend_from_slice(&[call_word(0), variable, end_word(1)]),
            Kind::Ratios => list.extend_from_slice(&[
                call_word(2),
                index_word(0),
                variable,
                end_word(1),
                end_word(0),
            ]),
        }
    }

    // Adds the question whether an element divides the variable, or its low base divisor.
    fn search(self, list: &mut Vec<u32>) -> Result<(), AllocError> {
        let variable = variable_word(0, 1);
        match self {
            Kind::Monomials => list.extend_from_slice(&[call_word(1), variable, end_word(1)]),
            Kind::Ratios => {
                list.extend_from_slice(&[call_word(5), index_word(0), variable, end_word(1)])
            }
        }
    }
}

// An index of capacity 100 and maxima 1, just opened.
fn opened(alloc: Global, kind: Kind, variables: u32) -> Result<Vec<u8>, AllocError> {
    let mut image = vec![in alloc; 0; 16384]?;
    let mut maxima = program_io::bytes_of(alloc, &[1; 4])?;
    maxima.truncate(4 * variables as usize);
    divisor_index::divisor_index_open(
        kind as u32,
        variables,
        100,
        maxima.as_slice(),
        image.as_mut_slice(),
    );
    Ok(image)
}

// How many answers were written: none is 0, and behind them the buffer is as it was.
fn written(answers: &[u8]) -> usize
    ensures { result ≤ length answers.now / 4 }
{
    let n = answers.len() / 4;
    (0..n)
        .position(|i| program_io::word_at(answers, i) == Some(0))
        .unwrap_or(n)
}

// Runs the list, and shows the last six answers, or all.
fn run(
    rt: &impl Print,
    alloc: Global,
    name: &str,
    image: &mut [u8],
    list: &[u8],
) -> io::Result<()> {
    let mut answers = vec![in alloc; 0; 16384]?;
    print!(rt; "{name}:")?;
    let number = divisor_index::divisor_index_run(image, list, answers.as_mut_slice());
    if number != 0 {
        print!(rt; " 5{number:07x}")?;
    }
    let n = written(answers.as_slice());
    for i in n.saturating_sub(6)..n {
        let answer = program_io::word_at(answers.as_slice(), i).unwrap_or(0);
        print!(rt; " {answer:08x}")?;
    }
    let nodes = program_io::word_at(image, fields::NODES).unwrap_or(0);
    println!(rt; ", nodes {nodes}")
}

// The list on a monomial index of 4 variables.
fn four(rt: &impl Print, alloc: Global, name: &str, list: &[u8]) -> io::Result<()> {
    let mut image = opened(alloc, Kind::Monomials, 4)?;
    run(rt, alloc, name, image.as_mut_slice(), list)
}

// The same with a list of words.
fn four_words(rt: &impl Print, alloc: Global, name: &str, list: &[u32]) -> io::Result<()> {
    let list = program_io::bytes_of(alloc, list)?;
    four(rt, alloc, name, list.as_slice())
}

// The list on an index of 1 variable.
fn one(rt: &impl Print, alloc: Global, name: &str, kind: Kind, list: &[u32]) -> io::Result<()> {
    let mut image = opened(alloc, kind, 1)?;
    let list = program_io::bytes_of(alloc, list)?;
    run(rt, alloc, name, image.as_mut_slice(), list.as_slice())
}

// Lists refused whole, the empty one, and an image that is none.
fn whole(rt: &impl Print, alloc: Global) -> io::Result<()> {
    four(rt, alloc, "empty list", b"")?;
    four(rt, alloc, "one byte", b"\x60")?;
    let no_call = [variable_word(0, 2), end_word(1)];
    four_words(rt, alloc, "no call in front", &no_call)?;
    let mut list = program_io::bytes_of(alloc, &[call_word(0), end_word(0)])?;
    list.push(0)?;
    four(rt, alloc, "a byte behind", list.as_slice())?;
    let mut image = vec![in alloc; 0; 16384]?;
    run(rt, alloc, "image of zeros", image.as_mut_slice(), b"")
}

// Refusals in their calls' places: number 9, no body, a body that goes on, a ratio index's number, each with a call served behind it.
fn places(rt: &impl Print, alloc: Global) -> io::Result<()> {
    let nine = [call_word(9), call_word(0), variable_word(0, 2), end_word(1)];
    four_words(rt, alloc, "number 9", &nine)?;
    let no_body = [call_word(0), call_word(1), end_word(0)];
    four_words(rt, alloc, "no body", &no_body)?;
    let goes_on = [
        call_word(0),
        end_word(0),
        end_word(0),
        call_word(1),
        end_word(0),
    ];
    four_words(rt, alloc, "body that goes on", &goes_on)?;
    let low_base_divisor = [
        call_word(5),
        index_word(0),
        end_word(0),
        call_word(0),
        end_word(0),
    ];
    four_words(rt, alloc, "number of a ratio index", &low_base_divisor)?;
    let contains = [
        call_word(1),
        end_word(0),
        call_word(5),
        index_word(0),
        end_word(0),
    ];
    one(
        rt,
        alloc,
        "number of a monomial index",
        Kind::Ratios,
        &contains,
    )
}

// Inserts with power 32,767 and 32,768, then a query with 32,767.
fn powers(rt: &impl Print, alloc: Global) -> io::Result<()> {
    let monomials = [
        call_word(0),
        variable_word(0, 32767),
        end_word(1),
        call_word(0),
        variable_word(0, 32768),
        end_word(1),
        call_word(1),
        variable_word(0, 32767),
        end_word(1),
    ];
    one(rt, alloc, "powers", Kind::Monomials, &monomials)?;
    let signatures = [
        call_word(2),
        index_word(0),
        variable_word(0, 32767),
        end_word(1),
        end_word(0),
        call_word(2),
        index_word(0),
        variable_word(0, 32768),
        end_word(1),
        end_word(0),
        call_word(5),
        index_word(0),
        variable_word(0, 32767),
        end_word(1),
    ];
    one(rt, alloc, "powers, ratio index", Kind::Ratios, &signatures)
}

// Calls of number 9: one byte less than 4,096 of them, 4,096, and one call more than there is room for answers.
fn lengths(rt: &impl Print, alloc: Global) -> io::Result<()> {
    let nines = vec![in alloc; call_word(9); 4097]?;
    for (name, n) in [
        ("16,383 bytes", 16383),
        ("16,384 bytes", 16384),
        ("16,388 bytes", 16388),
    ] {
        let mut list = program_io::bytes_of(alloc, nines.as_slice())?;
        list.truncate(n);
        four(rt, alloc, name, list.as_slice())?;
    }
    Ok(())
}

// n inserts, whose powers are all 1 or rise from 1, and a search.
fn inserts(alloc: Global, kind: Kind, n: u8, equal: bool) -> Result<Vec<u32>, AllocError> {
    let mut list = Vec::new(alloc);
    for i in 0..n {
        let power = if equal { 1 } else { i + 1 };
        kind.insert(&mut list, power)?;
    }
    kind.search(&mut list)?;
    Ok(list)
}

// 64 entries unsplit, 65 split, 65 equal ones unsplit; the 101st insert refused.
fn splits(rt: &impl Print, alloc: Global) -> io::Result<()> {
    for (name, kind, n, equal) in [
        ("64 entries", Kind::Monomials, 64, false),
        ("65 entries", Kind::Monomials, 65, false),
        ("65 equal entries", Kind::Monomials, 65, true),
        ("101 entries", Kind::Monomials, 101, false),
        ("64 entries, ratio index", Kind::Ratios, 64, false),
        ("65 entries, ratio index", Kind::Ratios, 65, false),
        ("65 equal entries, ratio index", Kind::Ratios, 65, true),
        ("101 entries, ratio index", Kind::Ratios, 101, false),
    ] {
        let list = inserts(alloc, kind, n, equal)?;
        one(rt, alloc, name, kind, list.as_slice())?;
    }
    Ok(())
}

fn main(rt: HostRuntime) -> io::Result<()> {
    let alloc = rt.alloc();
    whole(&rt, alloc)?;
    places(&rt, alloc)?;
    powers(&rt, alloc)?;
    lengths(&rt, alloc)?;
    splits(&rt, alloc)
}
