// The image of an index: where its tables are, and the door's question whether it is sound. docs/LAYOUT.md has the tables.
#![tactic(auto)]

pub mod fields;
pub mod head;
pub mod image;
pub mod stored;

ghost use Rattle.std.specs.Prelude.{◌≡◌, ◌+◌, ◌*◌, ◌≤◌};
ghost use Rattle.monomial.specs.Sizes.{Sizes};
ghost use Rattle.index_image.specs.Shape as at;
ghost use Rattle.index_image.specs.Size.{IsLength};

use std::ops::Range;

// The numbers of an image's header. They say where its tables begin, in words. The kind, 0 of a monomial index and 1 of a ratio index, is
// a number too, since what an entry has once or twice is counted with it.
#[derive(Clone, Copy, Debug, PartialEq, Eq)]
pub struct Shape {
    pub kind: usize,
    pub variables: usize,
    pub capacity: usize,
    pub entries: usize,
    pub nodes: usize,
}

impl Shape {
    pub fn entry_width(self) -> usize
        requires { at.InRange self }
        ensures { result ≡ at.entry_width self }
    {
        (self.kind + 1) * (self.variables + fields::MASKED) + 2 * self.kind
    }

    // Entry i.
    pub fn entry_at(self, i: usize) -> usize
        requires in_range { at.InRange self }
        requires i_le_capacity { i ≤ self.capacity }
        ensures { result ≡ at.entry_at self i }
    {
        fields::HEADER + 2 * self.variables + i * self.entry_width()
    }

    // The permutation: the places of the entries, in the order of the leaves.
    pub fn permutation_at(self) -> usize
        requires { at.InRange self }
        ensures { result ≡ at.permutation_at self }
    {
        self.entry_at(self.capacity)
    }

    pub fn labels_at(self) -> usize
        requires { at.InRange self }
        ensures { result ≡ at.labels_at self }
    {
        self.permutation_at() + self.capacity
    }

    pub fn labels_size(self) -> usize
        requires { at.InRange self }
        ensures { result ≡ at.labels_size self }
    {
        self.kind
            * (fields::LABELS
                + self.capacity * (self.variables + fields::LABEL_ROW)
                + self.capacity)
    }

    // The bytes of the map: the maxima that the masks were made from.
    pub fn map(self) -> Range<usize>
        requires { at.InRange self }
        ensures { (result.start ≡ 4 * at.map_at self.variables) × (result.end ≡ 4 * (at.map_at self.variables + self.variables)) }
    {
        let a = 4 * (fields::HEADER + self.variables);
        a..a + 4 * self.variables
    }

    // The bytes of the label map of a ratio index.
    pub fn labels(self) -> Range<usize>
        requires { at.InRange self }
        ensures { (result.start ≡ 4 * at.labels_at self) × (result.end ≡ 4 * (at.labels_at self + at.labels_size self)) }
    {
        let a = 4 * self.labels_at();
        a..a + 4 * self.labels_size()
    }

    // Node k, in preorder.
    pub fn node_at(self, k: usize) -> usize
        requires in_range { at.InRange self }
        requires k_bound { k ≤ 8191 }
        ensures { result ≡ at.node_at self k }
    {
        self.labels_at() + self.labels_size() + k * (self.variables + fields::NODE)
    }

    // The length of the image in words.
    pub fn size(self) -> usize
        requires { at.InRange self }
        ensures { result ≡ at.size self }
    {
        self.node_at(2 * self.capacity - 1)
    }
}

// The length in bytes of the image of an index.
pub fn length(kind: usize, variables: usize, capacity: usize) -> usize
    requires { (kind ≤ 1) × Sizes variables capacity }
    ensures { IsLength kind variables capacity result }
{
    let s = Shape {
        kind: kind,
        variables: variables,
        capacity: capacity,
        entries: 0,
        nodes: 1,
    };
    4 * s.size()
}
