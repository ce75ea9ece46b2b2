// Cases of the index's other doors, and of its labels: openings and lengths at the limits of their questions, the listing with each of its
// refusals, and ratios that fall or rise from insert to insert until the labels are dealt afresh. Writes a line a case.
#![tactic(auto)]

ghost use Rattle.std.specs.Prelude.{◌≤◌, ◌<◌};

use index_image::image::Image;
use std::alloc::{AllocError, Global};
use std::io;

// ---- the length call and the opening, whose line has both numbers and how many bytes of the buffer were changed
// Opens an index in a buffer of `room` bytes hex EE, which an opening does not write.
fn opening(
    rt: &impl Print,
    alloc: Global,
    name: &str,
    kind: u32,
    variables: u32,
    capacity: u32,
    maxima: &[u8],
    room: usize,
) -> io::Result<()> {
    let mut image = vec![in alloc; 0xEE; room]?;
    let length = divisor_index::divisor_index_length(kind, variables, capacity, maxima);
    let number = divisor_index::divisor_index_open(
        kind,
        variables,
        capacity,
        maxima,
        image.as_mut_slice(),
    );
    let changed = image.iter().filter(|byte| **byte != 0xEE).count();
    println!(rt; "{name}: length {length}, opening {number}, bytes changed {changed}")
}

// The first n bytes of maxima that are all 1.
fn ones(alloc: Global, n: usize) -> Result<Vec<u8>, AllocError> {
    let mut maxima = program_io::bytes_of(alloc, &[1; 66])?;
    maxima.truncate(n);
    Ok(maxima)
}

// Question 1 and 2 at their limits: kind, variables, capacity, bytes of maxima 1, and room.
fn numbers(rt: &impl Print, alloc: Global) -> io::Result<()> {
    for (name, kind, variables, capacity, n, room) in [
        ("monomial index", 0, 1, 1, 4, 2048),
        ("ratio index", 1, 2, 3, 8, 516),
        ("a byte short", 1, 2, 3, 8, 515),
        ("kind 2", 2, 1, 1, 4, 2048),
        ("kind 2 and no byte", 2, 1, 1, 4, 0),
        ("0 variables", 0, 0, 1, 0, 2048),
        ("64 variables", 0, 64, 1, 256, 2048),
        ("65 variables", 0, 65, 1, 260, 2048),
        ("capacity 0", 0, 1, 0, 4, 2048),
        ("capacity 4,096", 0, 1, 4096, 4, 2048),
        ("capacity 4,097", 0, 1, 4097, 4, 2048),
        ("largest", 1, 64, 4096, 256, 2048),
        ("maxima a word short", 0, 2, 1, 4, 2048),
        ("maxima a word more", 0, 1, 1, 8, 2048),
        ("maxima a byte more", 0, 1, 1, 5, 2048),
    ] {
        let maxima = ones(alloc, n)?;
        opening(
            rt,
            alloc,
            name,
            kind,
            variables,
            capacity,
            maxima.as_slice(),
            room,
        )?;
    }
    Ok(())
}

fn maxima(rt: &impl Print, alloc: Global) -> io::Result<()> {
    for (name, maximum) in [
        ("maximum 0", 0),
        ("maximum 32,767", 32767),
        ("maximum 32,768", 32768),
    ] {
        let maxima = program_io::bytes_of(alloc, &[maximum])?;
        opening(rt, alloc, name, 0, 1, 1, maxima.as_slice(), 2048)?;
    }
    Ok(())
}

// ---- the listing: served, and refused 3, 6 and 5, in this order. Its line has the number returned and some words of the buffer, which are
// hex EEEEEEEE where nothing was written.
fn show(rt: &impl Print, name: &str, number: u32, out: &[u8], places: &[usize]) -> io::Result<()> {
    print!(rt; "{name}: {number}")?;
    for i in places {
        print!(rt; " {:08x}", program_io::word_at(out, *i).unwrap_or(0))?;
    }
    println!(rt;)
}

// Lists the image into `room` bytes.
fn listing(rt: &impl Print, name: &str, image: &[u8], room: usize) -> io::Result<()>
    requires { room ≤ 2048 }
{
    let mut out = [0xEE; 2048];
    let number = divisor_index::divisor_index_list(image, &mut out[..room]);
    show(rt, name, number, &out, &[0, 1, 2, 3, 4, 5])
}

// Opens an index of 2 variables and capacity 100 over what the image holds, and runs the list.
fn hold(alloc: Global, image: &mut [u8], kind: u32, list: &[u32]) -> Result<(), AllocError> {
    let mut answers = vec![in alloc; 0; 16384]?;
    let maxima = ones(alloc, 8)?;
    let list = program_io::bytes_of(alloc, list)?;
    divisor_index::divisor_index_open(kind, 2, 100, maxima.as_slice(), image);
    divisor_index::divisor_index_run(image, list.as_slice(), answers.as_mut_slice());
    Ok(())
}

// A monomial index that holds what the list inserts.
fn held(alloc: Global, list: &[u32]) -> Result<Vec<u8>, AllocError> {
    let mut image = vec![in alloc; 0; 16384]?;
    hold(alloc, image.as_mut_slice(), 0, list)?;
    Ok(image)
}

// x1^2 · x0 and one: 4 words.
fn two(rt: &impl Print, alloc: Global) -> io::Result<()> {
    let list = [
        words::call_word(0),
        words::variable_word(1, 2),
        words::variable_word(0, 1),
        words::end_word(2),
        words::call_word(0),
        words::end_word(0),
    ];
    let image = held(alloc, &list)?;
    listing(rt, "listing of x1^2 x0 and 1", image.as_slice(), 2048)?;
    listing(rt, "listing, room for it", image.as_slice(), 16)?;
    listing(rt, "listing, a byte short", image.as_slice(), 15)
}

fn refused(rt: &impl Print, alloc: Global) -> io::Result<()> {
    let mut image = vec![in alloc; 0; 16384]?;
    listing(rt, "listing of no image", image.as_slice(), 0)?;
    hold(alloc, image.as_mut_slice(), 0, &[])?;
    listing(rt, "listing of nothing", image.as_slice(), 0)?;
    hold(alloc, image.as_mut_slice(), 1, &[])?;
    listing(rt, "listing of a ratio index", image.as_slice(), 2048)?;
    listing(rt, "listing of a ratio index, no room", image.as_slice(), 0)
}

// 65 inserts with powers of x0 that fall from 65 to 1, and whether one is contained.
fn falling_powers(alloc: Global) -> Result<Vec<u32>, AllocError> {
    let mut list = Vec::new(alloc);
    for i in 0..65 {
        let power = words::variable_word(0, 65 - i);
        list.extend_from_slice(&[words::call_word(0), power, words::end_word(1)])?;
    }
    list.extend_from_slice(&[words::call_word(1), words::end_word(0)])?;
    Ok(list)
}

// Split at 33, they are listed from 32 to 1, the less side, and then from 65 to 33.
fn split(rt: &impl Print, alloc: Global) -> io::Result<()> {
    let list = falling_powers(alloc)?;
    let image = held(alloc, list.as_slice())?;
    let mut out = [0xEE; 2048];
    let number = divisor_index::divisor_index_list(image.as_slice(), &mut out);
    let places = [0, 1, 62, 63, 64, 65, 128, 129, 130];
    show(rt, "listing of 65 powers", number, &out, &places)
}

// ---- ratios that fall or rise from insert to insert, in an index of 1 variable and capacity 64. The label of the 33rd falling value and of
// the 34th rising one is not free, so all labels are dealt afresh before it. The line has the labels of the first and the last two of the
// ratios, read from the image, and the answer to a search for the last one.
#[derive(Clone, Copy)]
enum Values {
    Falling,
    Rising,
}

impl Values {
    // The signature index of value i, by which falling values fall, and the power of its monomial, by which rising values rise.
    fn signature(self, i: u8) -> (u8, u8)
        requires { i ≤ 100 }
    {
        match self {
            Values::Falling => (100 - i, 1),
            Values::Rising => (0, i + 1),
        }
    }

    // A call with the signature of value i.
    fn call(self, number: u32, i: u8) -> [u32; 4]
        requires number_bound { number < 7 }
        requires i_bound { i ≤ 100 }
    {
        let (index, power) = self.signature(i);
        [
            words::call_word(number),
            words::index_word(u32::from(index)),
            words::variable_word(0, u32::from(power)),
            words::end_word(1),
        ]
    }

    // Inserts of n values, their leading monomials one, then the low base divisor of the last signature.
    fn calls(self, alloc: Global, n: u8) -> Result<Vec<u32>, AllocError>
        requires { n ≤ 64 }
    {
        let mut list = Vec::new(alloc);
        for i in 0..n {
            list.extend_from_slice(&self.call(2, i))?;
            list.push(words::end_word(0))?;
        }
        list.extend_from_slice(&self.call(5, n.saturating_sub(1)))?;
        Ok(list)
    }
}

// The label in row r of the label map, where the image has one.
#[tactic(auto, unfolding(index_image::specs::Head::HeadIs))]
fn label(image: &[u8], r: u8) -> Option<u64> {
    let shape = index_image::head::read(image)?;
    let row = usize::from(r);
    if shape.kind != 1 || shape.capacity <= row {
        return None;
    }
    let image = Image {
        bytes: image,
        shape,
    };
    Some(image.row_label(row))
}

fn show_values(rt: &impl Print, alloc: Global, name: &str, n: u8, values: Values) -> io::Result<()>
    requires { n ≤ 64 }
{
    let mut image = vec![in alloc; 0; 16384]?;
    let mut answers = vec![in alloc; 0; 2048]?;
    let maxima = ones(alloc, 4)?;
    let calls = values.calls(alloc, n)?;
    let list = program_io::bytes_of(alloc, calls.as_slice())?;
    divisor_index::divisor_index_open(1, 1, 64, maxima.as_slice(), image.as_mut_slice());
    divisor_index::divisor_index_run(
        image.as_mut_slice(),
        list.as_slice(),
        answers.as_mut_slice(),
    );
    print!(rt; "{name}, labels")?;
    for r in [0, n.saturating_sub(2), n.saturating_sub(1)] {
        print!(rt; " {}", label(image.as_slice(), r).unwrap_or(0))?;
    }
    let answer = program_io::word_at(answers.as_slice(), usize::from(n)).unwrap_or(0);
    println!(rt; ", low base divisor {answer:08x}")
}

fn label_cases(rt: &impl Print, alloc: Global) -> io::Result<()> {
    show_values(rt, alloc, "32 falling values", 32, Values::Falling)?;
    show_values(rt, alloc, "33 falling values", 33, Values::Falling)?;
    show_values(rt, alloc, "33 rising values", 33, Values::Rising)?;
    show_values(rt, alloc, "34 rising values", 34, Values::Rising)
}

fn main(rt: HostRuntime) -> io::Result<()> {
    let alloc = rt.alloc();
    numbers(&rt, alloc)?;
    maxima(&rt, alloc)?;
    two(&rt, alloc)?;
    refused(&rt, alloc)?;
    split(&rt, alloc)?;
    label_cases(&rt, alloc)
}
