// Opens a monomial index of 4 variables and capacity 100, runs the list of calls that it reads from standard input, and writes each answer word
// as a line of eight hex digits; for a list refused whole, that one word of kind 5. Bytes past 16 KiB are not read.
#![tactic(auto)]

ghost use Rattle.std.specs.Prelude.{◌≤◌, length};

use std::io;

fn line(rt: &impl Print, w: u64) -> io::Result<()> {
    println!(rt; "{w:08x}")
}

// A line for each word.
fn lines(rt: &impl Print, answers: &[u8]) -> io::Result<()> {
    let n = answers.len() / 4;
    for i in 0..n {
        line(rt, u64::from(words::get(answers, i)))?;
    }
    Ok(())
}

// Runs the list on the image and writes the answers: at most 4,096, since each call has a word.
fn replay(rt: &impl Print, image: &mut [u8], list: &[u8]) -> io::Result<()>
    requires { length list.now ≤ 16384 }
{
    let mut answers = [0u8; 16384];
    if let Err(e) = divisor_index::run(image, list, &mut answers) {
        let word = words::refusal_word(refusals::number(e));
        return line(rt, u64::from(word));
    }
    let n = 4 * call_list::count(list);
    lines(rt, &answers[..n])
}

fn main(rt: HostRuntime) -> io::Result<()> {
    let mut image = [0u8; 16384];
    divisor_index::divisor_index_open(
        0,
        4,
        100,
        b"\x01\x00\x00\x00\x01\x00\x00\x00\x01\x00\x00\x00\x01\x00\x00\x00",
        &mut image,
    );
    let mut list = [0u8; 16384];
    let n = program_io::read_full(&mut rt.stdin(), &mut list)?;
    replay(&rt, &mut image, &list[..n])
}
