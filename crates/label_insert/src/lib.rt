// From fast_compare.rs: a value gets its label, and is stored where it is new; and labels are dealt afresh.
#![tactic(auto)]

ghost use Rattle.std.specs.Prelude.{◌≡◌, ℕ, Ok, Err, ◌+◌, ◌*◌, ◌<◌, ◌≤◌, length, get_or};
ghost use Rattle.words.specs.Words.{words, paste_w};
ghost use Rattle.fast_compare.specs.Labels as Labels;
ghost use Rattle.fast_compare.specs.Labels.{below};
ghost use Rattle.fast_compare.specs.Map as Map;
ghost use Rattle.fast_compare.specs.Map.{State, Value, value_of, value, cmp, Good, place, stored};
ghost use Rattle.fast_compare.specs.Layout.{encode, Is, Sound, Gave};

use fast_compare::{Comparer, ComparerMap, Unlabelled};
use std::ops::Range;

// The labels that lie strictly between those of the neighbours of a new value with p values below it: from 0 on where it has no lower
// neighbour, and below 2^32 where it has no upper one.
fn free_labels(map: &ComparerMap<'_>, p: usize) -> Range<u64>
    requires { p ≤ get_or (words map.now.bytes.now) 3 0 }
    ensures end_bound { result.end ≤ 4294967296 }
    ensures start { (st : State) → Is st map.now.bytes.now → (q : Value) → Err p ≡ place st.rows q → result.start ≡ Labels.lowest cmp (value st.rows) (Map.label st.rows) (length st.rows) q }
    ensures end { (st : State) → Is st map.now.bytes.now → (q : Value) → Err p ≡ place st.rows q → result.end ≡ Labels.highest cmp (value st.rows) (Map.label st.rows) (length st.rows) q }
{
    let start = if p == 0 {
        0
    } else {
        u64::from(map.label_at(p - 1)) + 1
    };
    let end = if p == map.count() {
        4294967296
    } else {
        u64::from(map.label_at(p))
    };
    start..end
}

// Stores a new row, with p values below its own, behind the others. This function and the others that change a map take its bytes: a struct
// that knows them as a sound map would owe that again after each word that is written.
#[tactic(auto, using(fast_compare::proofs::Reading::head))]
fn store(map: &mut [u8], p: usize, index: u32, ratio: &[u8], label: u32)
    requires sound { Sound map.old }
    requires good { Good (get_or (words map.old) 1 0) (value_of index (words ratio.now)) }
    requires p_bound { (p ≤ get_or (words map.old) 3 0) × (get_or (words map.old) 3 0 < get_or (words map.old) 2 0) }
    ensures { (st : State) → Is st map.old → p ≡ below cmp (value st.rows) (length st.rows) (value_of index (words ratio.now)) → map.new ≡ paste_w map.old 0 (encode (stored (Ok (Comparer.New label)) st (value_of index (words ratio.now)))) }
{
    let variables = words::get(map, 1) as usize;
    let capacity = words::get(map, 2) as usize;
    let n = words::get(map, 3) as usize;
    let order = 4 + capacity * (variables + 3);
    let at = 4 + n * (variables + 3);
    words::runs::insert(map, order + p, order + n, n as u32);
    words::put(map, at, words::index_word(index));
    words::runs::paste(map, at + 1, ratio);
    words::put(map, at + (variables + 2), label);
    words::put(map, 3, n as u32 + 1);
}

// Gives a new value, with p values below it, a label and a row, where there are any.
fn add(map: &mut [u8], p: usize, index: u32, ratio: &[u8]) -> Result<Comparer, Unlabelled>
    requires sound { Sound map.old }
    requires good { Good (get_or (words map.old) 1 0) (value_of index (words ratio.now)) }
    requires p_bound { p ≤ get_or (words map.old) 3 0 }
    ensures { (st : State) → Is st map.old → Err p ≡ place st.rows (value_of index (words ratio.now)) → Gave st (value_of index (words ratio.now)) result map.old map.new }
{
    let read = ComparerMap { bytes: map };
    if words::get(map, 2) as usize <= read.count() {
        return Err(Unlabelled::Full);
    }
    let free = free_labels(&read, p);
    if free.is_empty() {
        return Err(Unlabelled::NoLabel);
    }
    let label = ((free.start + free.end - 1) / 2) as u32;
    store(map, p, index, ratio, label);
    Ok(Comparer::New(label))
}

// The label of a value, which is stored where it is new.
pub fn get_comparer(map: &mut [u8], index: u32, ratio: &[u8]) -> Result<Comparer, Unlabelled>
    requires sound { Sound map.old }
    requires good { Good (get_or (words map.old) 1 0) (value_of index (words ratio.now)) }
    ensures { (st : State) → Is st map.old → Gave st (value_of index (words ratio.now)) result map.old map.new }
{
    let read = ComparerMap { bytes: map };
    match read.search(index, ratio) {
        Ok(p) => Ok(Comparer::Known(read.label_at(p))),
        Err(p) => add(map, p, index, ratio),
    }
}

// The label of the k-th of n values after a rebuild.
fn spaced(n: usize, k: usize) -> u32
    requires { (k ≤ n) × (n ≤ 4096) }
    ensures { result ≡ Labels.spaced n k }
{
    (k as u64 * 4294967295 / (n as u64 + 1)) as u32
}

// Gives every value a new label, evenly spaced, in the same order.
#[tactic(auto, using(fast_compare::proofs::Reading::head))]
pub fn rebuild(map: &mut [u8])
    requires { Sound map.old }
    ensures { (st : State) → Is st map.old → map.new ≡ paste_w map.old 0 (encode (Map.rebuild st)) }
{
    let variables = words::get(map, 1) as usize;
    let capacity = words::get(map, 2) as usize;
    let n = words::get(map, 3) as usize;
    let order = 4 + capacity * (variables + 3);
    for k in 0..n {
        let row = words::get(map, order + k) as usize;
        let label = spaced(n, k + 1);
        words::put(map, 4 + row * (variables + 3) + (variables + 2), label);
    }
}
