// Where the fields of an image's rows stand, in words. `specs/Shape.antt` has the same names.

// In the header.
pub const LAYOUT: usize = 0;

pub const KIND: usize = 1;

pub const VARIABLES: usize = 2;

pub const CAPACITY: usize = 3;

pub const LENGTH: usize = 4;

pub const NODES: usize = 5;

pub const KEPT: usize = 6;

pub const HEADER: usize = 24;

// Behind the first word of a masked monomial, where its slot begins, as many words as there are variables and these more.
pub const SLOT: usize = 1;

pub const MASK: usize = 1;

pub const VECTOR: usize = 2;

pub const MASKED: usize = 3;

// Behind the first word of an entry, likewise; the row of its ratio with twice as many words as there are variables.
pub const INDEX: usize = 3;

pub const SIGN: usize = 4;

pub const ROW: usize = 7;

// In the label map: its number of rows, its first row, a row's ratio, and what a row is longer than the number of variables, with the label in its last word.
pub const ROWS: usize = 3;

pub const LABELS: usize = 4;

pub const RATIO: usize = 1;

pub const LABEL: usize = 2;

pub const LABEL_ROW: usize = 3;

// Behind the first word of a node's row, which is its tag. The row has as many words as there are variables and NODE more.
pub const KEY: usize = 1;

pub const COUNT: usize = 2;

pub const SKIP: usize = 3;

pub const NODE_MASK: usize = 4;

pub const GCD: usize = 5;

pub const NODE: usize = 6;
