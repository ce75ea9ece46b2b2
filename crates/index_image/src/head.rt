// The header of an image.
ghost use Rattle.std.specs.Prelude.{◌≡◌, true, ◌↔◌, length};
ghost use Rattle.words.specs.Words.{words};
ghost use Rattle.index_image.specs.Shape as at;
ghost use Rattle.index_image.specs.Head.{HeadIs};

use crate::{Shape, fields};

// Question 1's numbers, and as many entries and nodes as there can be.
#[tactic(auto, unfolding(monomial::specs::Sizes::sizes_fit, monomial::specs::Sizes::variables_fit))]
fn in_range(s: Shape) -> bool
    ensures { (result ≡ true) ↔ at.InRange s }
{
    s.kind <= 1
        && monomial::sizes::sizes_fit(s.variables, s.capacity)
        && s.entries <= s.capacity
        && 1 <= s.nodes
        && s.nodes <= 2 * s.capacity - 1
}

// The shape that the header gives, where the image has one and the bytes have room for it.
#[tactic(auto, unfolding(crate::specs::Head::HeadIs), using(crate::proofs::Heads::long_enough, crate::proofs::Bounds::size_small))]
pub fn read(image: &[u8]) -> Option<Shape>
    ensures { HeadIs (words image.now) (length image.now) result }
{
    if image.len() < 4 * fields::HEADER || words::get(image, fields::LAYOUT) != 1 {
        return None;
    }
    let s = Shape {
        kind: words::get(image, fields::KIND) as usize,
        variables: words::get(image, fields::VARIABLES) as usize,
        capacity: words::get(image, fields::CAPACITY) as usize,
        entries: words::get(image, fields::LENGTH) as usize,
        nodes: words::get(image, fields::NODES) as usize,
    };
    if words::runs::is_blank(image, fields::KEPT, fields::HEADER - fields::KEPT)
        && in_range(s)
        && 4 * s.size() <= image.len()
    {
        Some(s)
    } else {
        None
    }
}
