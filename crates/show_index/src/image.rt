// What an image holds, read from its words alone: the label map of a ratio index, and the tree.
ghost use Rattle.std.specs.Prelude.{◌+◌, ◌≤◌};
ghost use Rattle.index_image.specs.Shape as at;

use crate::monomials::{self, Monomial, Ratio, Signature};
use index_image::{Shape, fields};
use std::{fmt, io};

/// An image with a header that it can have.
#[derive(Clone, Copy)]
pub struct Image<'a> {
    bytes: &'a [u8],
    shape: Shape,
    ghost in_range: { at.InRange shape },
}

// A ratio and its label.
#[derive(Drop)]
struct Labelled {
    ratio: Ratio,
    label: u32,
}

impl fmt::Display for Labelled {
    fn fmt<W: fmt::Write>(&self, f: &mut fmt::Formatter<W>) -> fmt::Result {
        write!(f, "{}, label {:08x}", self.ratio, self.label)
    }
}

// What a branch parts its entries by: the ratio of an entry, or a power of a variable.
#[derive(Drop)]
enum Split {
    ByRatio(Labelled),
    ByPower { variable: u32, power: u32 },
}

impl fmt::Display for Split {
    fn fmt<W: fmt::Write>(&self, f: &mut fmt::Formatter<W>) -> fmt::Result {
        match self {
            Split::ByRatio(ratio) => write!(f, "ratio at {ratio}"),
            Split::ByPower { variable, power } => write!(f, "x{variable} at {power}"),
        }
    }
}

impl<'a> Image<'a> {
    pub fn read(bytes: &'a [u8]) -> Option<Image<'a>> {
        let shape = index_image::head::read(bytes)?;
        Some(Image { bytes, shape })
    }

    // Word i, or 0 where there is none.
    fn word(&self, i: usize) -> u32 {
        program_io::word_at(self.bytes, i).unwrap_or(0)
    }

    // Where row r of the label map begins.
    fn label_row_at(&self, r: u32) -> usize
        ensures { result ≤ 1099511627776 }
    {
        let s = self.shape;
        s.labels_at() + (fields::LABELS + r as usize * (s.variables + fields::LABEL_ROW))
    }

    // The row of entry e's ratio in the label map.
    fn row_of(&self, e: usize) -> u32 {
        let s = self.shape;
        if s.capacity <= e {
            return 0;
        }
        self.word(s.entry_at(e) + (2 * s.variables + fields::ROW))
    }

    // What row r of the label map holds.
    fn labelled(&self, r: u32) -> Labelled {
        let row = self.label_row_at(r);
        let (above, below) = monomials::read(monomial::known_at(self.bytes, row + 1));
        Labelled {
            ratio: Ratio {
                above: Signature {
                    index: words::payload(self.word(row)),
                    monomial: above,
                },
                below,
            },
            label: self.word(row + (self.shape.variables + fields::LABEL)),
        }
    }

    /// Writes a line for each ratio, in rising order.
    pub fn show_labels(&self, rt: &impl Print) -> io::Result<()> {
        let n = self.word(self.shape.labels_at() + fields::ROWS) as usize;
        let order = self.label_row_at(self.shape.capacity as u32);
        for i in 0..n {
            println!(rt; "  {}", self.labelled(self.word(order + i)))?;
        }
        Ok(())
    }

    // What the node whose row begins at word `row` is split by, none for a leaf.
    fn split(&self, row: usize) -> Option<Split>
        requires { row ≤ 1099511627776 }
    {
        let dimension = self.word(row).checked_sub(1)?;
        let key = self.word(row + fields::KEY);
        Some(match dimension.checked_sub(1) {
            None => Split::ByRatio(self.labelled(self.row_of(key as usize))),
            Some(variable) => Split::ByPower {
                variable,
                power: key,
            },
        })
    }

    // Row k of the nodes and all rows below it, the less side first.
    fn show_below(&self, rt: &impl Print, k: usize, depth: usize) -> io::Result<()>
        requires { depth ≤ k + 1 }
    {
        if self.shape.nodes <= k {
            return Ok(());
        }
        let row = self.shape.node_at(k);
        let count = self.word(row + fields::COUNT);
        let (gcd, _) = monomials::read(monomial::known_at(self.bytes, row + fields::GCD));
        let indent = 2 * depth;
        print!(rt; "{:indent$}{count} entries, gcd {gcd}", "")?;
        let Some(split) = self.split(row) else {
            return println!(rt;);
        };
        println!(rt; ", split by {split}")?;
        let skip = self.word(row + fields::SKIP) as usize;
        self.show_below(rt, k + 1, depth + 1)?;
        self.show_below(rt, k + 1 + skip, depth + 1)
    }

    /// Writes a line for each node.
    pub fn show_tree(&self, rt: &impl Print) -> io::Result<()> {
        self.show_below(rt, 0, 1)
    }
}
