// Replays lists of calls with the answers of the original Rust, which it reads from standard input: opens each job's index, lends it the
// job's lists one after the other, and compares every answer word, and at the end the image by its checksum. Writes how many jobs and calls
// of each mode there were, and how many differences. docs/DIFFERENCES.md says how the records were made.
//
// A record is words: its own length, mode, index kind, variables, capacity, the image's checksum at the end, the maxima, and the
// lists. A list is the length of its calls, the length of its answers, the calls and the answers. Lengths are in words.
#![tactic(auto)]

ghost use Rattle.std.specs.Prelude.{◌<◌, IfSome, length};

use divisor_index::Opening;
use program_io::{split_off_word, word_at};
use std::alloc::{AllocError, Global};
use std::io;

// By the number in their records.
const MODES: [&str; 14] = [
    "small",
    "splits",
    "rising",
    "falling",
    "crowding",
    "equal ratios",
    "repeats",
    "low queries",
    "masks",
    "odd averages",
    "many variables",
    "tall powers",
    "malformed",
    "capacity",
];

// The bytes of a record's first six words.
const HEAD: usize = 24;

// The most bytes of an image, and of the answers of a list, that are replayed: a record with more is a difference.
const IMAGE: usize = 262144;

const ANSWERS: usize = 16384;

#[derive(Clone, Copy)]
struct Job<'a> {
    opening: Opening<'a>,
    checksum: u32,
    lists: &'a [u8],
}

impl<'a> Job<'a> {
    fn read(record: &'a [u8]) -> Option<Job<'a>> {
        let (_, mut rest) = record.split_at_checked(8)?;
        let kind = split_off_word(&mut rest)?;
        let variables = split_off_word(&mut rest)?;
        let capacity = split_off_word(&mut rest)?;
        let checksum = split_off_word(&mut rest)?;
        let (maxima, lists) = rest.split_at_checked(4 * variables as usize)?;
        let opening = Opening {
            kind,
            variables,
            capacity,
            maxima,
        };
        Some(Job {
            opening,
            checksum,
            lists,
        })
    }

    // The index just opened, none where that is refused or its image is too long.
    fn opened(&self, alloc: Global) -> Result<Option<Vec<u8>>, AllocError> {
        let Ok(n) = self.opening.length() else {
            return Ok(None);
        };
        if IMAGE < n {
            return Ok(None);
        }
        let mut image = vec![in alloc; 0; n]?;
        let opened = self.opening.open(image.as_mut_slice());
        Ok(if opened.is_ok() { Some(image) } else { None })
    }
}

#[derive(Clone, Copy)]
struct List<'a> {
    calls: &'a [u8],
    answers: &'a [u8],
}

// The list at the front, and what stands behind it.
fn split_list(s: &[u8]) -> Option<(List<'_>, &[u8])>
    ensures { IfSome result (λ p. length p.1.now < length s.now) }
{
    let mut rest = s;
    let calls_length = split_off_word(&mut rest)?;
    let answers_length = split_off_word(&mut rest)?;
    let (calls, rest) = rest.split_at_checked(4 * calls_length as usize)?;
    let (answers, rest) = rest.split_at_checked(4 * answers_length as usize)?;
    Some((List { calls, answers }, rest))
}

fn checksum(image: &[u8]) -> u32 {
    let mut sum: u32 = 0;
    for word in image.chunks_exact(4) {
        sum = sum.wrapping_mul(31).wrapping_add(words::get(word, 0));
    }
    sum
}

#[derive(Clone, Copy, Default)]
struct Tally {
    jobs: usize,
    calls: usize,
    differences: usize,
}

impl Tally {
    fn count(&mut self, calls: usize, differences: usize) {
        self.calls = self.calls.saturating_add(calls);
        self.differences = self.differences.saturating_add(differences);
    }

    // Lends the list to the index: its answers that differ, or one difference where it is refused whole or has too many. A call has one answer.
    fn list(&mut self, alloc: Global, image: &mut [u8], list: &List<'_>) -> Result<(), AllocError> {
        let calls = list.answers.len() / 4;
        if ANSWERS < list.answers.len() {
            self.count(calls, 1);
            return Ok(());
        }
        let mut answers = vec![in alloc; 0; list.answers.len()]?;
        if divisor_index::run(image, list.calls, answers.as_mut_slice()).is_err() {
            self.count(calls, 1);
            return Ok(());
        }
        let pairs = answers.chunks_exact(4).zip(list.answers.chunks_exact(4));
        self.count(calls, pairs.filter(|pair| pair.0 != pair.1).count());
        Ok(())
    }

    // Runs all lists of a record on an index. What is left behind them is a difference, and so is another image.
    fn job(&mut self, alloc: Global, record: &[u8]) -> Result<(), AllocError> {
        self.jobs = self.jobs.saturating_add(1);
        let Some(job) = Job::read(record) else {
            self.count(0, 1);
            return Ok(());
        };
        let Some(mut image) = job.opened(alloc)? else {
            self.count(0, 1);
            return Ok(());
        };
        let mut rest = job.lists;
        while let Some((list, behind)) = split_list(rest) {
            self.list(alloc, image.as_mut_slice(), &list)?;
            rest = behind;
        }
        self.count(0, usize::from(!rest.is_empty()));
        self.count(0, usize::from(checksum(image.as_slice()) != job.checksum));
        Ok(())
    }
}

fn line(
    rt: &impl Print,
    alloc: Global,
    records: &[&[u8]],
    name: &str,
    mode: u32,
) -> io::Result<()> {
    let mut tally = Tally::default();
    for record in records {
        if word_at(record, 1) == Some(mode) {
            tally.job(alloc, record)?;
        }
    }
    println!(rt;
        "{name}: {} jobs, {} calls, {} differences",
        tally.jobs, tally.calls, tally.differences
    )
}

fn main(rt: HostRuntime) -> io::Result<()> {
    let mut input = vec![in rt.alloc(); 0; 163840]?;
    let n = program_io::read_full(&mut rt.stdin(), input.as_mut_slice())?;
    input.truncate(n);
    let (records, rest) = program_io::records(rt.alloc(), input.as_slice(), HEAD)?;
    for (mode, name) in (0..).zip(MODES) {
        line(&rt, rt.alloc(), records.as_slice(), name, mode)?;
    }
    println!(rt; "{} bytes unread", rest.len())
}
