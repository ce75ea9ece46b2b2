// From monomial_index.rs: the calls of a monomial index. A call writes the image, so it takes its bytes and its numbers: a struct over `&mut`
// bytes would owe what it knows again after each word.
#![tactic(auto)]

ghost use Rattle.std.specs.Prelude.{◌≡◌, Ok, ◌%◌, ◌≤◌, length};
ghost use Rattle.words.specs.Words.{words};
ghost use Rattle.monomial.specs.Monomial.{Canonical};
ghost use Rattle.index_theory.specs.Calls.{insertion, query, plain, serve, step};
ghost use Rattle.index_theory.specs.Searches.{containment};
ghost use Rattle.call_list.specs.Bodies.{call_of};
ghost use Rattle.listing.specs.Listed.{Root};
ghost use Rattle.index_replies.specs.Replied.{Replied};

use call_list::Call;
use index_image::Shape;
use index_image::image::SoundImage;
use refusals::Refusal;

// Call 0: inserts a monomial, and answers its number. What it shares with the ratio index's is a test and a cast: a closure that writes the
// image between them would say no less.
pub fn insert(image: &mut [u8], s: Shape, lm: &[u8]) -> Result<u32, Refusal>
    requires root { Root image.old s }
    requires kind_value { s.kind ≡ 0 }
    requires canonical { Canonical 1 s.variables (words lm.now) }
    requires lm_len { length lm.now % 4 ≡ 0 }
    ensures { Replied (λ st. serve st (insertion (plain (words lm.now)))) image.old image.new result }
{
    if s.capacity <= s.entries {
        return Err(Refusal::Full);
    }
    let n = kd_insert::insertion::insert_monomial(image, s, lm);
    Ok(n as u32)
}

// Call 1: whether an entry divides the monomial, 1 or 0. The query's words are written to q.
pub fn contains_divisor(image: &mut [u8], s: Shape, q: &mut [u8], m: &[u8]) -> u32
    requires root { Root image.old s }
    requires kind_value { s.kind ≡ 0 }
    requires in_bounds { 368 ≤ length q.old }
    requires canonical { Canonical 1 s.variables (words m.now) }
    ensures { Replied (λ st. serve st (query (containment (words m.now)))) image.old image.new (Ok result) }
{
    let sound = SoundImage {
        bytes: image,
        shape: s,
    };
    kd_query::contained(&sound, q, m);
    u32::from(kd_tree::find(image, q, m).is_some())
}

// A call to a monomial index.
pub fn call(image: &mut [u8], s: Shape, q: &mut [u8], call: Call<'_>) -> Result<u32, Refusal>
    requires root { Root image.old s }
    requires kind_value { s.kind ≡ 0 }
    requires in_bounds { 368 ≤ length q.old }
    ensures { Replied (λ st. step st (call_of call.entry)) image.old image.new result }
{
    let v = s.variables as u32;
    match call.number {
        0 => {
            let lm = call_list::single(call.body, v)?;
            insert(image, s, lm)
        }
        1 => {
            let m = call_list::single(call.body, v)?;
            Ok(contains_divisor(image, s, q, m))
        }
        _ => Err(Refusal::NotServed),
    }
}
