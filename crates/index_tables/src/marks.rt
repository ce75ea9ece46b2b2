// Words that name places of a table: whether every place is named.
ghost use Rattle.std.specs.Prelude.{◌≡◌, true, ◌↔◌, ℕ, ◌+◌, ◌*◌, ◌≤◌, ◌<◌, length, get_or};
ghost use Rattle.words.specs.Words.{words};
ghost use Rattle.index_image.specs.Marks.{name_at, Named, Marked};

// Marks the places that n words name, w words apart.
fn mark(image: &[u8], at: usize, w: usize, n: usize, seen: &mut [u8])
    requires n_bound { (n ≤ 4096) × ((w ≤ 136) × (at ≤ 2097152)) }
    requires by_index { (i : ℕ) → i < n → 4 * (at + i * w) + 4 ≤ length image.now }
    requires by_index_2 { (i : ℕ) → i < n → name_at (words image.now) at w i < length seen.old }
    requires by_index_3 { (j : ℕ) → get_or seen.old j 0 ≡ 0 }
    ensures { Marked (words image.now) at w n seen.new }
{
    for i in 0..n {
        let j = words::get(image, at + i * w) as usize;
        seen[j] = 1;
    }
}

// Whether the first n places are marked.
fn all_marked(seen: &[u8], n: usize) -> bool
    requires { n ≤ length seen.now }
    ensures { (result ≡ true) ↔ ((j : ℕ) → j < n → get_or seen.now j 0 ≡ 1) }
{
    seen[..n].iter().all(|x| *x == 1)
}

// Whether n words, w words apart, name every place below `places`.
pub fn all_named(image: &[u8], at: usize, w: usize, n: usize, places: usize) -> bool
    requires n_bound { (n ≤ 4096) × ((w ≤ 136) × ((at ≤ 2097152) × (places ≤ 4096))) }
    requires by_index { (i : ℕ) → i < n → 4 * (at + i * w) + 4 ≤ length image.now }
    requires by_index_2 { (i : ℕ) → i < n → name_at (words image.now) at w i < 4096 }
    ensures { (result ≡ true) ↔ ((j : ℕ) → j < places → Named (words image.now) at w n j) }
{
    // A mark for each of 4,096 places: there is no heap, so the length is fixed.
    let mut seen = [0u8; 4096];
    mark(image, at, w, n, &mut seen);
    all_marked(&seen, places)
}
