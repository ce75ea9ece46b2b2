// Monomials, signatures and ratios in four variables as text: x3·x2^2, x1·e2 with signature index 2, x3·e2/(x2^2·x1).
use std::fmt;

/// The powers of x3, x2, x1 and x0.
#[derive(Clone, Copy, PartialEq, Eq)]
pub struct Monomial(pub [u32; 4]);

impl Monomial {
    pub const ONE: Monomial = Monomial([0; 4]);

    // How many variables it has.
    fn factors(&self) -> usize {
        self.0.iter().filter(|power| **power != 0).count()
    }
}

impl fmt::Display for Monomial {
    fn fmt<W: fmt::Write>(&self, f: &mut fmt::Formatter<W>) -> fmt::Result {
        if *self == Monomial::ONE {
            return write!(f, "1");
        }
        let mut separator = "";
        for (variable, power) in [3, 2, 1, 0].iter().zip(self.0.iter()) {
            match *power {
                0 => continue,
                1 => write!(f, "{separator}x{variable}")?,
                _ => write!(f, "{separator}x{variable}^{power}")?,
            }
            separator = "·";
        }
        Ok(())
    }
}

#[derive(Clone, Copy)]
pub struct Signature {
    pub index: u32,
    pub monomial: Monomial,
}

impl fmt::Display for Signature {
    fn fmt<W: fmt::Write>(&self, f: &mut fmt::Formatter<W>) -> fmt::Result {
        let Signature { index, monomial } = *self;
        if monomial == Monomial::ONE {
            return write!(f, "e{index}");
        }
        write!(f, "{monomial}·e{index}")
    }
}

/// A signature over a monomial, which have no variable in common.
#[derive(Clone, Copy)]
pub struct Ratio {
    pub above: Signature,
    pub below: Monomial,
}

impl fmt::Display for Ratio {
    fn fmt<W: fmt::Write>(&self, f: &mut fmt::Formatter<W>) -> fmt::Result {
        let Ratio { above, below } = *self;
        match below.factors() {
            0 => write!(f, "{above}"),
            1 => write!(f, "{above}/{below}"),
            _ => write!(f, "{above}/({below})"),
        }
    }
}

/// The parts above and below the fraction bar of a ratio's words. A monomial's words have none below it.
pub fn read(list: &[u8]) -> (Monomial, Monomial) {
    let mut above = [0; 4];
    let mut below = [0; 4];
    for word in list.chunks_exact(4) {
        let word = words::get(word, 0);
        let power = words::power(word);
        let powers = match words::kind(word) {
            words::VARIABLE => (power, 0),
            words::RATIO => (power.saturating_sub(32768), 32768u32.saturating_sub(power)),
            _ => continue,
        };
        if let Some(i) = 3u32.checked_sub(words::id(word)) {
            above[i as usize] = powers.0;
            below[i as usize] = powers.1;
        }
    }
    (Monomial(above), Monomial(below))
}
