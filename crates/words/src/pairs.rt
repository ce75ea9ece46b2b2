// Two words that stand side by side, as one number of 64 bits.
ghost use Rattle.std.specs.Prelude.{◌≡◌, ◌+◌, ◌*◌, ◌/◌, ◌%◌, ◌≤◌, length, get_or};
ghost use Rattle.words.specs.Words.{words, put_w};

// Words i and i + 1 of s, the first in the lower half. It compiles to one 64-bit load.
pub fn get(s: &[u8], i: usize) -> u64
    requires { 4 * i + 8 ≤ length s.now }
    ensures { result ≡ get_or (words s.now) i 0 + 4294967296 * get_or (words s.now) (i + 1) 0 }
{
    u64::from(crate::get(s, i)) + 4294967296 * u64::from(crate::get(s, i + 1))
}

// Writes x as words i and i + 1 of s, the lower half first.
pub fn put(s: &mut [u8], i: usize, x: u64)
    requires { 4 * i + 8 ≤ length s.old }
    ensures { s.new ≡ put_w (put_w s.old i (x % 4294967296)) (i + 1) (x / 4294967296) }
{
    crate::put(s, i, (x % 4294967296) as u32);
    crate::put(s, i + 1, (x / 4294967296) as u32);
}
