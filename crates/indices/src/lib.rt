// A call of a list on the image of an index, whichever kind it is.
#![tactic(auto)]

ghost use Rattle.std.specs.Prelude.{◌≡◌, ◌≤◌, length};
ghost use Rattle.index_theory.specs.Calls.{step};
ghost use Rattle.index_image.specs.Layout.{Sound};
ghost use Rattle.call_list.specs.Bodies.{call_of};
ghost use Rattle.listing.specs.Listed.{Root};
ghost use Rattle.index_replies.specs.Replied.{Replied};

use call_list::Call;
use index_image::{Shape, fields};
use refusals::Refusal;

// The numbers of a sound image's header.
pub fn shape(image: &[u8]) -> Shape
    requires { Sound image.now }
    ensures { Root image.now result }
{
    Shape {
        kind: words::get(image, fields::KIND) as usize,
        variables: words::get(image, fields::VARIABLES) as usize,
        capacity: words::get(image, fields::CAPACITY) as usize,
        entries: words::get(image, fields::LENGTH) as usize,
        nodes: words::get(image, fields::NODES) as usize,
    }
}

// A call of a list, answered by a number or refused.
pub fn call(image: &mut [u8], q: &mut [u8], call: Call<'_>) -> Result<u32, Refusal>
    requires sound { Sound image.old }
    requires in_bounds { 368 ≤ length q.old }
    ensures { Replied (λ st. step st (call_of call.entry)) image.old image.new result }
{
    let s = shape(image);
    if s.kind == 0 {
        monomial_index::call(image, s, q, call)
    } else {
        ratio_monomial_index::call(image, s, q, call)
    }
}
