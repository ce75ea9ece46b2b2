// Opens ratio indexes, lends them lists of calls, and shows each call with its answer, and what then stands in the image: the ratios with
// their labels, and the tree.
#![tactic(auto)]

mod calls;
mod image;
mod monomials;

ghost use Rattle.std.specs.Prelude.{◌≡◌, IfOk, length};

use calls::{Answer, Call, Powers, Question};
use image::Image;
use std::alloc::{AllocError, Global};
use std::io;

const ONE: Powers = [0; 4];

// A ratio index of 4 variables with maxima 1.
fn opened(rt: &impl Print, alloc: Global, capacity: u32) -> io::Result<Vec<u8>> {
    println!(rt; "a ratio index of 4 variables, capacity {capacity}")?;
    let mut image = vec![in alloc; 0; 65536]?;
    let ones = program_io::bytes_of(alloc, &[1; 4])?;
    divisor_index::divisor_index_open(1, 4, capacity, ones.as_slice(), image.as_mut_slice());
    Ok(image)
}

// Runs the calls, and returns their answers.
fn run(alloc: Global, image: &mut [u8], calls: &[Call]) -> Result<Vec<u8>, AllocError> {
    let mut answers = vec![in alloc; 0; 16384]?;
    let list = calls::list_of(alloc, calls)?;
    divisor_index::divisor_index_run(image, list.as_slice(), answers.as_mut_slice());
    Ok(answers)
}

// Runs the calls, and shows them with their answers.
fn show_run(rt: &impl Print, alloc: Global, image: &mut [u8], calls: &[Call]) -> io::Result<()> {
    let answers = run(alloc, image, calls)?;
    for (call, answer) in calls.iter().zip(answers.chunks_exact(4)) {
        println!(rt; "{call}: {}", Answer::read(*call, words::get(answer, 0)))?;
    }
    Ok(())
}

fn show_labels(rt: &impl Print, image: &[u8]) -> io::Result<()> {
    println!(rt; "its ratios, rising")?;
    match Image::read(image) {
        Some(image) => image.show_labels(rt),
        None => println!(rt; "no image"),
    }
}

fn show_tree(rt: &impl Print, image: &[u8]) -> io::Result<()> {
    println!(rt; "its tree, the less side first")?;
    match Image::read(image) {
        Some(image) => image.show_tree(rt),
        None => println!(rt; "no image"),
    }
}

// Two cranks on one axle, a rod between their ends at (x3, x2) and (x1, x0): x3^2 + x2^2 - 1, x1^2 + x0^2 - 1 and x3 x1 + x2 x0 - c. These
// are the first six elements of its signature basis, of which the index has no room for the last, and then searches as the solver makes
// them for an element: reducers of its leading monomial, base divisors, and whether it is singular.
fn linkage(rt: &impl Print, alloc: Global) -> io::Result<()> {
    let calls = [
        Call::new(Question::Insert, 0, ONE, [2, 0, 0, 0]),
        Call::new(Question::Insert, 1, ONE, [0, 0, 2, 0]),
        Call::new(Question::Insert, 2, ONE, [1, 0, 1, 0]),
        Call::new(Question::Insert, 2, [0, 0, 1, 0], [0, 1, 1, 1]),
        Call::new(Question::Insert, 2, [1, 0, 0, 0], [0, 2, 1, 0]),
        Call::new(Question::Insert, 2, [0, 1, 1, 0], [1, 1, 0, 0]),
        Call::new(Question::Reducer, 2, [1, 0, 1, 0], [0, 2, 2, 0]),
        Call::new(Question::Reducer, 2, [1, 1, 0, 0], [0, 3, 1, 0]),
        Call::new(Question::Reducer, 2, [1, 1, 0, 0], [0, 3, 0, 0]),
        Call::new(Question::HighBaseDivisor, 1, [1, 0, 0, 0], [1, 2, 1, 0]),
        Call::new(Question::LowBaseDivisor, 2, [1, 0, 1, 0], ONE),
        Call::new(Question::LowBaseDivisor, 3, ONE, ONE),
        Call::new(Question::Singular, 2, [1, 0, 1, 0], [0, 2, 2, 0]),
        Call::new(Question::Singular, 2, [0, 1, 1, 0], [0, 2, 1, 1]),
    ];
    let mut image = opened(rt, alloc, 5)?;
    show_run(rt, alloc, image.as_mut_slice(), &calls)?;
    show_labels(rt, image.as_slice())?;
    show_tree(rt, image.as_slice())
}

// 240 inserts: their leading monomials fill a box of 5 by 6 by 8.
fn many_inserts(alloc: Global) -> Result<Vec<Call>, AllocError>
    ensures { IfOk result (λ calls. length calls.items ≡ 240) }
{
    let mut calls = Vec::new(alloc);
    for i in 0..240 {
        let signature = [i % 7, 0, 0, 0];
        let leading = [0, i % 5, i / 5 % 6, i / 30];
        calls.push(Call::new(Question::Insert, i % 3, signature, leading))?;
    }
    Ok(calls)
}

// Inserts many elements and shows the tree, then again after a search that leaves out no side of a branch.
fn many(rt: &impl Print, alloc: Global) -> io::Result<()> {
    let mut image = opened(rt, alloc, 240)?;
    let inserts = many_inserts(alloc)?;
    run(alloc, image.as_mut_slice(), inserts.as_slice())?;
    println!(rt;
        "insert x3^(i % 7)·e(i % 3), lm x2^(i % 5)·x1^(i / 5 % 6)·x0^(i / 30), for i from 0 to 239"
    )?;
    show_tree(rt, image.as_slice())?;
    let search = Call::new(Question::HighBaseDivisor, 0, ONE, [9, 9, 9, 9]);
    show_run(rt, alloc, image.as_mut_slice(), &[search])?;
    show_tree(rt, image.as_slice())
}

fn main(rt: HostRuntime) -> io::Result<()> {
    linkage(&rt, rt.alloc())?;
    println!(rt;)?;
    many(&rt, rt.alloc())
}
