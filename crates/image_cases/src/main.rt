// Asks whether an index image is sound for every change of one word of the images that it reads from standard input, and for
// every shorter length, and writes a line for each image. docs/DIFFERENCES.md says how images and expected lines were made.
//
// A record is words: how many words the image has, at most 1,000, and the image.
#![tactic(auto)]

ghost use Rattle.std.specs.Prelude.{◌+◌, ◌*◌, ◌<◌, ◌≤◌, IfSome, length};

use program_io::split_off_word;
use std::io;

// What is made of a word.
#[derive(Clone, Copy)]
enum Change {
    // One bit flipped.
    Flip(u32),
    More,
    Less,
    Zero,
    // Exchanged with the next word.
    Exchange,
}

impl Change {
    // The word and the next one after the change.
    fn apply(self, word: u32, next: u32) -> (u32, u32) {
        match self {
            Change::Flip(bit) => (word ^ 1u32.rotate_left(bit), next),
            Change::More => (word.wrapping_add(1), next),
            Change::Less => (word.wrapping_sub(1), next),
            Change::Zero => (0, next),
            Change::Exchange => (next, word),
        }
    }
}

// What was answered for the changes of an image. The checksum is of all answers in their order.
#[derive(Clone, Copy, Default)]
struct Tally {
    sound: u32,
    refused: u32,
    checksum: u32,
}

impl Tally {
    // One answer more, none where the change changed nothing.
    fn count(&mut self, answer: Option<bool>) {
        let code = match answer {
            Some(false) => {
                self.refused = self.refused.wrapping_add(1);
                0
            }
            Some(true) => {
                self.sound = self.sound.wrapping_add(1);
                1
            }
            None => 2,
        };
        self.checksum = self.checksum.wrapping_mul(31).wrapping_add(code);
    }

    // Every change of word i.
    fn word_changes(&mut self, image: &mut [u8], i: usize)
        requires { 4 * i + 4 ≤ length image.old }
    {
        let others = [Change::More, Change::Less, Change::Zero, Change::Exchange];
        for change in (0..32).map(Change::Flip).chain(others) {
            self.count(asked(image, i, change));
        }
    }
}

// The word after word i, after the last one the first.
fn after(image: &[u8], i: usize) -> usize
    requires { 4 * i + 4 ≤ length image.now }
    ensures { 4 * result + 4 ≤ length image.now }
{
    if i + 1 < image.len() / 4 { i + 1 } else { 0 }
}

// The answer for the image with the change of word i, which is undone.
fn asked(image: &mut [u8], i: usize, change: Change) -> Option<bool>
    requires { 4 * i + 4 ≤ length image.old }
{
    let j = after(image, i);
    let word = words::get(image, i);
    let next = words::get(image, j);
    let (changed, next_changed) = change.apply(word, next);
    if changed == word {
        return None;
    }
    words::put(image, j, next_changed);
    words::put(image, i, changed);
    let sound = index_sound::sound(image);
    words::put(image, j, next);
    words::put(image, i, word);
    Some(sound)
}

fn changes(image: &mut [u8]) -> Tally {
    let mut tally = Tally::default();
    for i in 0..image.len() / 4 {
        tally.word_changes(image, i);
    }
    tally
}

// How many shorter lengths, in bytes, are refused.
fn shorter_refused(image: &[u8]) -> u32 {
    let mut refused: u32 = 0;
    for n in 0..image.len() {
        if !index_sound::sound(&image[..n]) {
            refused = refused.wrapping_add(1);
        }
    }
    refused
}

fn line(rt: &impl Print, image: &mut [u8]) -> io::Result<()> {
    let words = image.len() / 4;
    let sound = u8::from(index_sound::sound(image));
    let Tally {
        sound: still_sound,
        refused,
        checksum,
    } = changes(image);
    let shorter = shorter_refused(image);
    println!(rt;
        "{words} words, sound {sound}; changed: {still_sound} sound, {refused} refused, checksum {checksum}; shorter: {shorter} refused"
    )
}

// The image of the record at the front, and what stands behind it.
fn split_image(s: &[u8]) -> Option<(&[u8], &[u8])>
    ensures { IfSome result (λ p. length p.1.now < length s.now) }
{
    let mut rest = s;
    let n = split_off_word(&mut rest)?;
    if n == 0 || 1000 < n {
        return None;
    }
    rest.split_at_checked(4 * n as usize)
}

fn main(rt: HostRuntime) -> io::Result<()> {
    let mut input = vec![in rt.alloc(); 0; 131072]?;
    let n = program_io::read_full(&mut rt.stdin(), input.as_mut_slice())?;
    if n == input.len() {
        return println!(rt; "standard input is too long");
    }
    input.truncate(n);
    let mut rest = input.as_slice();
    while let Some((image, behind)) = split_image(rest) {
        let mut image = Vec::from_slice(rt.alloc(), image)?;
        line(&rt, image.as_mut_slice())?;
        rest = behind;
    }
    println!(rt; "{} bytes unread", rest.len())
}
