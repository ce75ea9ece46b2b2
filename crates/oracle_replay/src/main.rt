// Replays answers of the original Rust, which it reads from standard input: lends each record's operands to the port's door, and
// compares the number returned and every byte of the buffer after it. Writes how many vectors of each operation there were, and how
// many differed. docs/DIFFERENCES.md says how the records were made.
//
// A record is words: its own length, operation, variables, room, number returned, the lengths of both operands, the operands, and
// the words that then stand at the front of the buffer. Lengths are in words. For the label map the operands are image and ratio,
// and the index and the label stand in the places of variables and room.
#![tactic(auto)]

use monomial_work::Work;
use program_io::{split_off_word, word_at};
use std::io;

#[derive(Clone, Copy)]
enum Operation {
    Monomials(Work),
    Mask,
    MaskDivides,
    Update,
    Growth,
    GetComparer,
    Rebuild,
}

// By the number in their records.
const OPERATIONS: [(&str, Operation); 15] = [
    ("gcd", Operation::Monomials(Work::Gcd)),
    ("whole_division", Operation::Monomials(Work::WholeDivision)),
    ("divides", Operation::Monomials(Work::Divides)),
    (
        "fraction_division",
        Operation::Monomials(Work::FractionDivision),
    ),
    ("mul", Operation::Monomials(Work::Mul)),
    ("eq", Operation::Monomials(Work::Eq)),
    ("ord", Operation::Monomials(Work::Cmp)),
    ("eq_ratio", Operation::Monomials(Work::RatioEq)),
    ("ord_ratio", Operation::Monomials(Work::RatioCmp)),
    ("mask", Operation::Mask),
    ("mask_divides", Operation::MaskDivides),
    ("update", Operation::Update),
    ("growth", Operation::Growth),
    ("get_comparer", Operation::GetComparer),
    ("rebuild", Operation::Rebuild),
];

// The bytes of a record's first seven words.
const HEAD: usize = 28;

// The bytes of the buffer, which begin as EE.
const BUFFER: usize = 704;

#[derive(Clone, Copy)]
struct Vector<'a> {
    variables: u32,
    room: u32,
    number: u32,
    a: &'a [u8],
    b: &'a [u8],
    after: &'a [u8],
}

impl<'a> Vector<'a> {
    fn read(record: &'a [u8]) -> Option<Vector<'a>> {
        let (_, mut rest) = record.split_at_checked(8)?;
        let variables = split_off_word(&mut rest)?;
        let room = split_off_word(&mut rest)?;
        let number = split_off_word(&mut rest)?;
        let a_length = split_off_word(&mut rest)?;
        let b_length = split_off_word(&mut rest)?;
        let (a, rest) = rest.split_at_checked(4 * a_length as usize)?;
        let (b, after) = rest.split_at_checked(4 * b_length as usize)?;
        Some(Vector {
            variables,
            room,
            number,
            a,
            b,
            after,
        })
    }

    // What stands in the bytes that are lent, and how many these are.
    fn lent(&self, operation: Operation) -> (&'a [u8], usize) {
        match operation {
            Operation::Update | Operation::GetComparer | Operation::Rebuild => {
                (self.a, self.a.len())
            }
            Operation::MaskDivides => (&[], 0),
            Operation::Monomials(_) | Operation::Mask | Operation::Growth => {
                (&[], 4 * self.room as usize)
            }
        }
    }

    // Whether the door returns the number.
    fn served(&self, operation: Operation, out: &mut [u8]) -> bool {
        let Vector {
            variables,
            number,
            a,
            b,
            ..
        } = *self;
        match operation {
            Operation::Monomials(work) => {
                monomial_work::serve(work, variables, a, b, out) == number
            }
            Operation::Mask => {
                divmask_work::divisor_index_divmask_mask(variables, a, b, out) == number
            }
            Operation::MaskDivides => match (word_at(a, 0), word_at(b, 0)) {
                (Some(x), Some(y)) => divmask_work::divisor_index_divmask_divides(x, y) == number,
                _ => false,
            },
            Operation::Update => {
                divmask_work::divisor_index_divmask_update(variables, out, b) == number
            }
            Operation::Growth => match b.first() {
                Some(percentage) => {
                    divmask_work::divisor_index_divmask_growth(variables, a, *percentage, out)
                        == number
                }
                None => false,
            },
            Operation::GetComparer => {
                label_work::divisor_index_fast_compare_get_comparer(out, variables, b)
                    == 4294967296 * u64::from(number) + u64::from(self.room)
            }
            Operation::Rebuild => label_work::divisor_index_fast_compare_rebuild(out) == number,
        }
    }

    // Whether the door returns the number and leaves the buffer as the original did.
    fn passes(&self, operation: Operation) -> bool {
        let (before, room) = self.lent(operation);
        if BUFFER < room || room < before.len() {
            return false;
        }
        let mut out = [0xEE; BUFFER];
        out[..before.len()].copy_from_slice(before);
        if !self.served(operation, &mut out[..room]) {
            return false;
        }
        // It is lent no buffer, so what stands behind its operands is not looked at.
        if matches!(operation, Operation::MaskDivides) {
            return true;
        }
        match out.split_at_checked(self.after.len()) {
            Some((front, behind)) => front == self.after && behind.iter().all(|b| *b == 0xEE),
            None => false,
        }
    }
}

fn passes(record: &[u8], operation: Operation) -> bool {
    match Vector::read(record) {
        Some(vector) => vector.passes(operation),
        None => false,
    }
}

fn line(
    rt: &impl Print,
    records: &[&[u8]],
    name: &str,
    number: u32,
    operation: Operation,
) -> io::Result<()> {
    let chosen = |record: &&[u8]| word_at(record, 1) == Some(number);
    let vectors = records.iter().filter(|record| chosen(*record)).count();
    let differences = records
        .iter()
        .filter(|record| chosen(*record) && !passes(record, operation))
        .count();
    println!(rt; "{name}: {vectors} vectors, {differences} differences")
}

fn main(rt: HostRuntime) -> io::Result<()> {
    let mut input = vec![in rt.alloc(); 0; 81920]?;
    let n = program_io::read_full(&mut rt.stdin(), input.as_mut_slice())?;
    input.truncate(n);
    let (records, rest) = program_io::records(rt.alloc(), input.as_slice(), HEAD)?;
    for (number, (name, operation)) in (0..).zip(OPERATIONS) {
        line(&rt, records.as_slice(), name, number, operation)?;
    }
    println!(rt; "{} bytes unread", rest.len())
}
