// An image that is only read, beside the numbers of its header: three structs, by how much of it is known.
ghost use Rattle.std.specs.Prelude.{◌≡◌, ◌*◌, ◌≤◌, length};
ghost use Rattle.words.specs.Words.{words};
ghost use Rattle.index_image.specs.Shape as at;
ghost use Rattle.index_image.specs.Head as head;
ghost use Rattle.index_image.specs.Layout as layout;
ghost use Rattle.index_image.specs.Walk as walk;

use crate::Shape;

// Its numbers are in range, and it has room for their tables.
#[derive(Clone, Copy)]
pub struct Image<'a> {
    pub bytes: &'a [u8],
    pub shape: Shape,
    pub ghost range: { at.InRange shape },
    pub ghost room: { 4 * at.size shape ≤ length bytes.now },
}

// The words that a reader of its entries goes by are there and make sense.
#[derive(Clone, Copy)]
pub struct ReadyImage<'a> {
    pub bytes: &'a [u8],
    pub shape: Shape,
    pub ghost ready: { walk.Ready (words bytes.now) shape },
}

// It is that of a valid index.
#[derive(Clone, Copy)]
pub struct SoundImage<'a> {
    pub bytes: &'a [u8],
    pub shape: Shape,
    pub ghost sound: { ∥ layout.Sound bytes.now ∥₁ },
    pub ghost head: { head.HeadOk (words bytes.now) (length bytes.now) shape },
}

// Both forget what else is known, each of its own facts: one function of both would need a trait with the same two clauses.
impl<'a> ReadyImage<'a> {
    pub fn image(&self) -> Image<'a>
        ensures { (result.bytes.now ≡ self.now.bytes.now) × (result.shape ≡ self.now.shape) }
    {
        Image {
            bytes: self.bytes,
            shape: self.shape,
        }
    }
}

impl<'a> SoundImage<'a> {
    pub fn image(&self) -> Image<'a>
        ensures { (result.bytes.now ≡ self.now.bytes.now) × (result.shape ≡ self.now.shape) }
    {
        Image {
            bytes: self.bytes,
            shape: self.shape,
        }
    }
}
