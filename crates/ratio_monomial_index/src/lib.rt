// From ratio_monomial_index.rs: the calls of a ratio index. As in `monomial_index` a call takes bytes and numbers. The searches differ in the
// query that they pose, and what they share is a line each: a function of them all, which takes that as a closure, would be no plainer.
#![tactic(auto)]

ghost use Rattle.std.specs.Prelude.{◌≡◌, Ok, IfSome, MatchOption, ◌+◌, ◌%◌, ◌≤◌, ◌<◌, length};
ghost use Rattle.words.specs.Words.{words};
ghost use Rattle.monomial.specs.Monomial.{Canonical};
ghost use Rattle.fast_compare.specs.Map.{value_of};
ghost use Rattle.index_theory.specs.Searches.{reducing, high, low, singular};
ghost use Rattle.index_theory.specs.Calls.{insertion, query, serve, step};
ghost use Rattle.call_list.specs.Bodies.{call_of};
ghost use Rattle.kd_insert.specs.Inserting.{signed};
ghost use Rattle.listing.specs.Listed.{Root};
ghost use Rattle.index_replies.specs.Replied.{Replied};

use call_list::Call;
use index_image::Shape;
use index_image::image::SoundImage;
use monomial::Kind;
use query_words as query;
use query_words::Query;
use refusals::Refusal;

// Call 2: inserts an entry, and answers its number. `monomial_index::insert` says why the two stay apart.
pub fn insert(
    image: &mut [u8],
    s: Shape,
    index: u32,
    sign: &[u8],
    lm: &[u8],
) -> Result<u32, Refusal>
    requires root { Root image.old s }
    requires kind_value { s.kind ≡ 1 }
    requires index_bound { index < 268435456 }
    requires canonical { (Canonical 1 s.variables (words sign.now)) × (length sign.now % 4 ≡ 0) }
    requires canonical_2 { (Canonical 1 s.variables (words lm.now)) × (length lm.now % 4 ≡ 0) }
    ensures { Replied (λ st. serve st (insertion (signed index (words sign.now) (words lm.now)))) image.old image.new result }
{
    if s.capacity <= s.entries {
        return Err(Refusal::Full);
    }
    let n = kd_insert::insertion::insert_ratio(image, s, index, sign, lm);
    Ok(n as u32)
}

// The number of an entry + 1; 0 for none.
fn numbered(entry: Option<usize>) -> u32
    requires { IfSome entry (λ e. e < 4096) }
    ensures { MatchOption entry (result ≡ 0) (λ e. result ≡ e + 1) }
{
    match entry {
        Some(e) => e as u32 + 1,
        None => 0,
    }
}

// Call 3: a reducer of the monomial, the first regular one or else the last singular one: its number + 1, and 2^27 more for a singular one; 0 for none.
pub fn find_a_reducer(
    image: &mut [u8],
    s: Shape,
    q: &mut [u8],
    index: u32,
    ratio: &[u8],
    m: &[u8],
) -> u32
    requires root { Root image.old s }
    requires kind_value { s.kind ≡ 1 }
    requires in_bounds { 368 ≤ length q.old }
    requires canonical { Canonical 2 s.variables (words ratio.now) }
    requires canonical_2 { Canonical 1 s.variables (words m.now) }
    ensures { Replied (λ st. serve st (query (reducing (value_of index (words ratio.now)) (words m.now)))) image.old image.new (Ok result) }
{
    let sound = SoundImage {
        bytes: image,
        shape: s,
    };
    kd_query::reducer(&sound, q, index, ratio, m);
    let Some(e) = kd_tree::find(image, q, m) else {
        return 0;
    };
    let n = e as u32 + 1;
    let asked = Query { bytes: q };
    if asked.label(image, e) < asked.pair(query::FLOOR) {
        return n;
    }
    n + 134217728
}

// Call 4: the first high base divisor of the largest ratio: its number + 1; 0 for none.
pub fn find_high_base_divisor(
    image: &mut [u8],
    s: Shape,
    q: &mut [u8],
    index: u32,
    ratio: &[u8],
    m: &[u8],
) -> u32
    requires root { Root image.old s }
    requires kind_value { s.kind ≡ 1 }
    requires in_bounds { 368 ≤ length q.old }
    requires canonical { Canonical 2 s.variables (words ratio.now) }
    requires canonical_2 { Canonical 1 s.variables (words m.now) }
    ensures { Replied (λ st. serve st (query (high (value_of index (words ratio.now)) (words m.now)))) image.old image.new (Ok result) }
{
    let sound = SoundImage {
        bytes: image,
        shape: s,
    };
    kd_query::high(&sound, q, index, ratio, m);
    numbered(kd_tree::find(image, q, m))
}

// Call 5: the first low base divisor of the largest ratio, as for call 4.
pub fn find_low_base_divisor(
    image: &mut [u8],
    s: Shape,
    q: &mut [u8],
    index: u32,
    sign: &[u8],
) -> u32
    requires root { Root image.old s }
    requires kind_value { s.kind ≡ 1 }
    requires in_bounds { 368 ≤ length q.old }
    requires index_bound { index < 268435456 }
    requires canonical { Canonical 1 s.variables (words sign.now) }
    ensures { Replied (λ st. serve st (query (low index (words sign.now)))) image.old image.new (Ok result) }
{
    let sound = SoundImage {
        bytes: image,
        shape: s,
    };
    kd_query::low(&sound, q, index, sign);
    numbered(kd_tree::find(image, q, sign))
}

// Call 6: whether a signature is singular, 1 or 0.
pub fn test_singular_criterion(
    image: &mut [u8],
    s: Shape,
    q: &mut [u8],
    index: u32,
    sign: &[u8],
    lm: &[u8],
) -> u32
    requires root { Root image.old s }
    requires kind_value { s.kind ≡ 1 }
    requires in_bounds { 368 ≤ length q.old }
    requires index_bound { index < 268435456 }
    requires canonical { Canonical 1 s.variables (words sign.now) }
    requires canonical_2 { Canonical 1 s.variables (words lm.now) }
    ensures { Replied (λ st. serve st (query (singular index (words sign.now) (words lm.now)))) image.old image.new (Ok result) }
{
    let sound = SoundImage {
        bytes: image,
        shape: s,
    };
    kd_query::singular(&sound, q, index, sign, lm);
    u32::from(kd_tree::find(image, q, sign).is_some())
}

// A call to a ratio index.
pub fn call(image: &mut [u8], s: Shape, q: &mut [u8], call: Call<'_>) -> Result<u32, Refusal>
    requires root { Root image.old s }
    requires kind_value { s.kind ≡ 1 }
    requires in_bounds { 368 ≤ length q.old }
    ensures { Replied (λ st. step st (call_of call.entry)) image.old image.new result }
{
    let v = s.variables as u32;
    match call.number {
        2 => {
            let (index, sign, lm) = call_list::triple(Kind::Monomial, call.body, v)?;
            insert(image, s, index, sign, lm)
        }
        3 => {
            let (index, ratio, m) = call_list::triple(Kind::Ratio, call.body, v)?;
            Ok(find_a_reducer(image, s, q, index, ratio, m))
        }
        4 => {
            let (index, ratio, m) = call_list::triple(Kind::Ratio, call.body, v)?;
            Ok(find_high_base_divisor(image, s, q, index, ratio, m))
        }
        5 => {
            let (index, sign) = call_list::pair(call.body, v)?;
            Ok(find_low_base_divisor(image, s, q, index, sign))
        }
        6 => {
            let (index, sign, lm) = call_list::triple(Kind::Monomial, call.body, v)?;
            Ok(test_singular_criterion(image, s, q, index, sign, lm))
        }
        _ => Err(Refusal::NotServed),
    }
}
