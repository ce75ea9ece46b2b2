// Runs of words in byte slices: tested for zeros, cleared, copied in, moved up.
ghost use Rattle.std.specs.Prelude.{◌≡◌, true, ◌∷◌, ◌↔◌, ◌+◌, ◌*◌, ◌-◌, ◌≤◌, length};
ghost use Rattle.words.specs.Words.{words, paste_w};
ghost use Rattle.words.specs.Tables.{part, zeros};

// The n words from word `at` on joined by or: 0 where each of them is. It reads on behind a word that is not 0, so that the
// compiler can read many words at once.
fn bits_of(s: &[u8], at: usize, n: usize) -> u32
    requires { 4 * (at + n) ≤ length s.now }
    ensures { (result ≡ 0) ↔ (part (words s.now) at n ≡ zeros n) }
{
    let mut bits: u32 = 0;
    for i in 0..n {
        bits |= crate::get(s, at + i);
    }
    bits
}

// Whether the n words from word `at` on are 0.
pub fn is_blank(s: &[u8], at: usize, n: usize) -> bool
    requires { 4 * (at + n) ≤ length s.now }
    ensures { (result ≡ true) ↔ (part (words s.now) at n ≡ zeros n) }
{
    bits_of(s, at, n) == 0
}

// Writes n zeros from word `at` on.
pub fn clear(s: &mut [u8], at: usize, n: usize)
    requires { 4 * (at + n) ≤ length s.old }
    ensures { s.new ≡ paste_w s.old at (zeros n) }
{
    s[4 * at..4 * (at + n)].fill(0);
}

// Writes the words of row from word `at` on, one by one: `copy_from_slice` calls `memmove`, which the archive for C would want from outside.
pub fn paste(s: &mut [u8], at: usize, row: &[u8])
    requires { 4 * at + length row.now ≤ length s.old }
    ensures { s.new ≡ paste_w s.old at (words row.now) }
{
    for i in 0..row.len() / 4 {
        crate::put(s, at + i, crate::get(row, i));
    }
}

// Moves the words from `at` up to `end` up by `by` words.
pub fn move_up(s: &mut [u8], at: usize, end: usize, by: usize)
    requires at_le_end { at ≤ end }
    requires by_in_bounds { 4 * (end + by) ≤ length s.old }
    ensures { s.new ≡ paste_w s.old (at + by) (part (words s.old) at (end - at)) }
{
    s.copy_within(4 * at..4 * end, 4 * (at + by));
}

// Makes room at word `at`, moving the words up to `end` up by one, and writes w there.
pub fn insert(s: &mut [u8], at: usize, end: usize, w: u32)
    requires at_le_end { at ≤ end }
    requires end_in_bounds { 4 * end + 4 ≤ length s.old }
    ensures { s.new ≡ paste_w s.old at (w ∷ part (words s.old) at (end - at)) }
{
    move_up(s, at, end, 1);
    crate::put(s, at, w);
}
