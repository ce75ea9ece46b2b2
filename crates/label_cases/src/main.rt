// Worked cases of the label map, run through its doors: falling and rising values, capacity, rebuild, damaged maps.
#![tactic(auto)]

ghost use Rattle.std.specs.Prelude.{◌+◌, ◌*◌, ◌/◌, ◌≤◌, length};

use std::alloc::{AllocError, Global};
use std::{fmt, io};
use words::{end_word, ratio_word};

// The ratio one.
const ONE: [u8; 4] = [0; 4];

// What the map answers: a label, or a refusal's number.
#[derive(Clone, Copy)]
struct Reply(Result<u32, u32>);

impl fmt::Display for Reply {
    fn fmt<W: fmt::Write>(&self, f: &mut fmt::Formatter<W>) -> fmt::Result {
        match self.0 {
            Ok(label) => write!(f, "{label}"),
            Err(number) => write!(f, "R{number}"),
        }
    }
}

// The answer for the value of this index and ratio.
fn ask(map: &mut [u8], index: u32, ratio: &[u8]) -> Reply {
    let answer = label_work::divisor_index_fast_compare_get_comparer(map, index, ratio);
    Reply(u32::try_from(answer).map_err(|_| (answer / 4294967296) as u32))
}

// The answers for values of these indexes and the ratio one.
fn asks(rt: &impl Print, map: &mut [u8], indexes: &[u32]) -> io::Result<()> {
    for index in indexes {
        print!(rt; " {}", ask(map, *index, &ONE))?;
    }
    println!(rt;)
}

#[derive(Clone, Copy)]
enum Values {
    Falling,
    Rising,
}

impl Values {
    // Index and ratio of value k: the indexes fall, or the powers of one ratio rise.
    fn value(self, alloc: Global, k: u8) -> Result<(u32, Vec<u8>), AllocError> {
        let k = u32::from(k);
        match self {
            Values::Falling => Ok((1000 - k, program_io::bytes_of(alloc, &[end_word(0)])?)),
            Values::Rising => {
                let ratio = [ratio_word(0, 32769 + k), end_word(1)];
                Ok((7, program_io::bytes_of(alloc, &ratio)?))
            }
        }
    }

    // Asks for values until one is refused.
    fn until_refused(self, rt: &impl Print, alloc: Global, map: &mut [u8]) -> io::Result<()> {
        let mut last = Reply(Ok(0));
        for k in 0..40 {
            let (index, ratio) = self.value(alloc, k)?;
            let reply = ask(map, index, ratio.as_slice());
            if reply.0.is_err() {
                return println!(rt; "{k} accepted, last {last}, then {reply}");
            }
            last = reply;
        }
        Ok(())
    }
}

// Whether the map is sound with `more` added to word i, which is put back.
fn sound_with(map: &mut [u8], i: usize, more: u32) -> bool
    requires { 4 * i + 4 ≤ length map.old }
{
    let old = words::get(map, i);
    words::put(map, i, old.wrapping_add(more));
    let sound = label_sound::sound(map);
    words::put(map, i, old);
    sound
}

// How many of the map's words can have `more` added and leave it sound.
fn sound_words(map: &mut [u8], more: u32) -> usize
    ensures { result ≤ length map.old / 4 }
{
    let n = map.len() / 4;
    let mut sound: usize = 0;
    for i in 0..n {
        if sound_with(map, i, more) {
            sound += 1;
        }
    }
    sound
}

// Every word changed in turn: how many maps are refused 3 and how many are sound.
fn damaged(rt: &impl Print, map: &mut [u8], more: u32) -> io::Result<()> {
    let n = map.len() / 4;
    let sound = sound_words(map, more);
    println!(rt; "{} refused, {sound} sound", n - sound)
}

fn lengths(rt: &impl Print) -> io::Result<()> {
    for (variables, capacity) in [(1, 40), (0, 40), (64, 4096)] {
        let length = label_work::divisor_index_fast_compare_length(variables, capacity);
        print!(rt; " {length}")?;
    }
    println!(rt;)
}

// Opens the map anew, and shows the number.
fn open(rt: &impl Print, map: &mut [u8], variables: u32, capacity: u32) -> io::Result<()> {
    let number = label_work::divisor_index_fast_compare_open(variables, capacity, map);
    print!(rt; "{number}")
}

// A map of 1 variable and capacity 40.
fn wide(rt: &impl Print, alloc: Global) -> io::Result<()> {
    let mut map = [0; 816];
    open(rt, &mut map, 1, 40)?;
    open(rt, &mut map, 1, 41)?;
    open(rt, &mut map, 65, 40)?;
    println!(rt;)?;
    Values::Falling.until_refused(rt, alloc, &mut map)?;
    let number = label_work::divisor_index_fast_compare_rebuild(&mut map);
    print!(rt; "{number}")?;
    asks(rt, &mut map, &[1])?;
    open(rt, &mut map, 1, 40)?;
    println!(rt;)?;
    Values::Rising.until_refused(rt, alloc, &mut map)
}

// A map of 2 variables and capacity 3: one below the capacity, at it and past it; a known value on a full map; a value that is not
// canonical. Then it is damaged.
fn small(rt: &impl Print) -> io::Result<()> {
    let mut map = [0; 88];
    open(rt, &mut map, 2, 3)?;
    asks(rt, &mut map, &[5, 3, 7, 9, 3, 268435456])?;
    open(rt, &mut map, 2, 3)?;
    asks(rt, &mut map, &[5, 3])?;
    for more in [1, 65536, 268435456, 2147483648] {
        damaged(rt, &mut map, more)?;
    }
    Ok(())
}

fn main(rt: HostRuntime) -> io::Result<()> {
    lengths(&rt)?;
    wide(&rt, rt.alloc())?;
    small(&rt)
}
