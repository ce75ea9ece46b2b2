// Calls of a ratio index: written into a list, and shown with their answers.
use crate::monomials::{Monomial, Ratio, Signature};
use monomial::Kind;
use std::alloc::{AllocError, Global};
use std::{array, fmt};

/// The powers of x3, x2, x1 and x0 in a call.
pub type Powers = [u8; 4];

/// What is asked, by the number of its call.
#[derive(Clone, Copy)]
pub enum Question {
    Insert = 2,
    Reducer = 3,
    HighBaseDivisor = 4,
    LowBaseDivisor = 5,
    Singular = 6,
}

/// A call about an element of a signature basis.
#[derive(Clone, Copy)]
pub struct Call {
    question: Question,
    index: u8,
    signature: Powers,
    leading: Powers,
}

impl Call {
    /// A call about the element with this index and monomial of its signature and this leading monomial.
    pub fn new(question: Question, index: u8, signature: Powers, leading: Powers) -> Call {
        Call {
            question,
            index,
            signature,
            leading,
        }
    }

    // Adds the words of the call to the list.
    fn write(&self, list: &mut Vec<u32>) -> Result<(), AllocError> {
        list.push(words::call_word(self.question as u32))?;
        list.push(words::index_word(u32::from(self.index)))?;
        match self.question {
            Question::Insert | Question::Singular => {
                write_monomial(list, self.signature)?;
                write_monomial(list, self.leading)
            }
            Question::Reducer | Question::HighBaseDivisor => {
                write_ratio(list, self.signature, self.leading)?;
                write_monomial(list, self.leading)
            }
            Question::LowBaseDivisor => write_monomial(list, self.signature),
        }
    }
}

impl fmt::Display for Call {
    fn fmt<W: fmt::Write>(&self, f: &mut fmt::Formatter<W>) -> fmt::Result {
        let leading = Monomial(self.leading.map(u32::from));
        let signature = Signature {
            index: u32::from(self.index),
            monomial: Monomial(self.signature.map(u32::from)),
        };
        let ratio = Ratio {
            above: Signature {
                index: u32::from(self.index),
                monomial: over(self.signature, self.leading),
            },
            below: over(self.leading, self.signature),
        };
        match self.question {
            Question::Insert => write!(f, "insert {signature}, lm {leading}"),
            Question::Reducer => write!(f, "reducer of {leading}, ratio not above {ratio}"),
            Question::HighBaseDivisor => {
                write!(f, "high base divisor of {leading}, ratio above {ratio}")
            }
            Question::LowBaseDivisor => write!(f, "low base divisor of {signature}"),
            Question::Singular => write!(f, "singular: {signature}, lm {leading}"),
        }
    }
}

// What of m is left over n.
fn over(m: Powers, n: Powers) -> Monomial {
    Monomial(array::from_fn(|i| u32::from(m[i].saturating_sub(n[i]))))
}

// Adds the words of the variables whose powers are not those of an absent one, and the end word.
fn write_powers(list: &mut Vec<u32>, kind: Kind, powers: [u16; 4]) -> Result<(), AllocError> {
    let mut n = 0;
    for (i, power) in powers.iter().enumerate() {
        let power = u32::from(*power);
        if power != kind.bias() {
            list.push(words::var_word(kind.number(), (3 - i) as u32, power))?;
            n += 1;
        }
    }
    list.push(words::end_word(n))?;
    Ok(())
}

fn write_monomial(list: &mut Vec<u32>, m: Powers) -> Result<(), AllocError> {
    write_powers(list, Kind::Monomial, m.map(u16::from))
}

// A ratio's powers have 32,768 more.
fn write_ratio(list: &mut Vec<u32>, m: Powers, n: Powers) -> Result<(), AllocError> {
    let powers = array::from_fn(|i| 32768 + u16::from(m[i]) - u16::from(n[i]));
    write_powers(list, Kind::Ratio, powers)
}

/// The list of these calls.
pub fn list_of(alloc: Global, calls: &[Call]) -> Result<Vec<u8>, AllocError> {
    let mut list = Vec::new(alloc);
    for call in calls {
        call.write(&mut list)?;
    }
    program_io::bytes_of(alloc, list.as_slice())
}

/// What the index answered to a call. Entries have numbers from 0.
#[derive(Drop)]
pub enum Answer {
    Refused(u32),
    Inserted(u32),
    Found(Option<u32>),
    Reducer(Option<(u32, bool)>),
    Singular(bool),
}

// What the payload of a reducer has more where it is singular.
const SINGULAR_REDUCER: u32 = 134217728;

impl Answer {
    /// The answer word of the call.
    pub fn read(call: Call, word: u32) -> Answer {
        let payload = words::payload(word);
        if words::kind(word) == words::REFUSAL {
            return Answer::Refused(payload);
        }
        match call.question {
            Question::Insert => Answer::Inserted(payload),
            Question::Reducer => {
                let entry = (payload % SINGULAR_REDUCER).checked_sub(1);
                Answer::Reducer(entry.map(|entry| (entry, SINGULAR_REDUCER <= payload)))
            }
            Question::HighBaseDivisor | Question::LowBaseDivisor => {
                Answer::Found(payload.checked_sub(1))
            }
            Question::Singular => Answer::Singular(payload == 1),
        }
    }
}

impl fmt::Display for Answer {
    fn fmt<W: fmt::Write>(&self, f: &mut fmt::Formatter<W>) -> fmt::Result {
        match *self {
            Answer::Refused(number) => write!(f, "refused, {number}"),
            Answer::Inserted(entry) | Answer::Found(Some(entry)) => write!(f, "entry {entry}"),
            Answer::Reducer(Some((entry, false))) => write!(f, "entry {entry}, regular"),
            Answer::Reducer(Some((entry, true))) => write!(f, "entry {entry}, singular"),
            Answer::Found(None) | Answer::Reducer(None) => write!(f, "none"),
            Answer::Singular(false) => write!(f, "no"),
            Answer::Singular(true) => write!(f, "yes"),
        }
    }
}
