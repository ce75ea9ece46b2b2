// 32-bit words, low byte first, in byte slices: read and written at any place, taken apart and built.
#![tactic(auto)]

pub mod pairs;
pub mod runs;

ghost use Rattle.std.specs.Prelude.{◌≡◌, ◌+◌, ◌*◌, ◌<◌, ◌≤◌, length, get_or};
ghost use Rattle.words.specs.Words.{words, put_w};
ghost use Rattle.words.specs.Kinds as kinds;

// The kinds of words, in the top 4 bits; a variable's word of a monomial, and of a ratio. They are numbers and no enum: they stand in bytes
// that C writes, where any of the 16 can be.
pub const END: u32 = 0;

pub const VARIABLE: u32 = 1;

pub const RATIO: u32 = 2;

pub const INDEX: u32 = 3;

pub const ANSWER: u32 = 4;

pub const REFUSAL: u32 = 5;

pub const CALL: u32 = 6;

// Word i of s. It compiles to one 32-bit load.
pub fn get(s: &[u8], i: usize) -> u32
    requires { 4 * i + 4 ≤ length s.now }
    ensures { result ≡ get_or (words s.now) i 0 }
{
    let j = 4 * i;
    u32::from_le_bytes([s[j], s[j + 1], s[j + 2], s[j + 3]])
}

// Writes w as word i of s. It compiles to one 32-bit store.
pub fn put(s: &mut [u8], i: usize, w: u32)
    requires { 4 * i + 4 ≤ length s.old }
    ensures { s.new ≡ put_w s.old i w }
{
    s[4 * i..4 * i + 4].copy_from_slice(&w.to_le_bytes());
}

pub fn kind(w: u32) -> u32
    ensures { result ≡ kinds.kind w }
{
    w / 268435456
}

pub fn payload(w: u32) -> u32
    ensures { result ≡ kinds.payload w }
{
    w % 268435456
}

// The id of a variable's word.
pub fn id(w: u32) -> u32
    ensures { result ≡ kinds.ident w }
{
    w / 65536 % 4096
}

// The power of a variable's word; of a ratio's word, the power + 32,768.
pub fn power(w: u32) -> u32
    ensures { result ≡ kinds.power w }
{
    w % 65536
}

// Kind and id of a variable's word, in one number.
pub fn upper_half(w: u32) -> u32
    ensures { result ≡ kinds.upper_half w }
{
    w / 65536
}

// The id in an upper half.
pub fn upper_id(u: u32) -> u32
    ensures { result ≡ kinds.upper_ident u }
{
    u % 4096
}

// Whether w ends a monomial or ratio.
pub fn is_end(w: u32) -> bool
    ensures { result ≡ kinds.is_end w }
{
    kind(w) == END
}

// The end of a monomial or ratio of n variables.
pub fn end_word(n: u32) -> u32
    requires { n < 268435456 }
    ensures { result ≡ kinds.end_word n }
{
    n
}

// Variable v with p in the bits of its power, of kind 1 or 2.
pub fn var_word(k: u32, v: u32, p: u32) -> u32
    requires { (k < 16) × ((v < 4096) × (p < 65536)) }
    ensures { result ≡ kinds.var_word k v p }
{
    268435456 * k + (65536 * v + p)
}

// Variable v to the power p.
pub fn variable_word(v: u32, p: u32) -> u32
    requires { (v < 4096) × (p < 65536) }
    ensures { result ≡ kinds.var_word 1 v p }
{
    var_word(VARIABLE, v, p)
}

// Variable v of a ratio, its power + 32,768 given.
pub fn ratio_word(v: u32, p: u32) -> u32
    requires { (v < 4096) × (p < 65536) }
    ensures { result ≡ kinds.var_word 2 v p }
{
    var_word(RATIO, v, p)
}

// The word of a kind and a payload.
fn word_of(kind: u32, payload: u32) -> u32
    requires { (kind < 16) × (payload < 268435456) }
    ensures { result ≡ kinds.word_of kind payload }
{
    268435456 * kind + payload
}

pub fn index_word(i: u32) -> u32
    requires { i < 268435456 }
    ensures { result ≡ kinds.index_word i }
{
    word_of(INDEX, i)
}

pub fn answer_word(p: u32) -> u32
    requires { p < 268435456 }
    ensures { result ≡ kinds.answer_word p }
{
    word_of(ANSWER, p)
}

pub fn refusal_word(n: u32) -> u32
    requires { n < 268435456 }
    ensures { result ≡ kinds.refusal_word n }
{
    word_of(REFUSAL, n)
}

pub fn call_word(n: u32) -> u32
    requires { n < 268435456 }
    ensures { result ≡ kinds.call_word n }
{
    word_of(CALL, n)
}
