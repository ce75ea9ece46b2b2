// From divmask.rs, MaximumExponentsTracker: the maximum of each variable, and how far the maxima have grown.
ghost use Rattle.std.specs.Prelude.{◌≡◌, ◌*◌, length};
ghost use Rattle.words.specs.Words.{words, paste_w};
ghost use Rattle.monomial.specs.Monomial.{Starts, first};
ghost use Rattle.divmask.specs.Tracker as spec;

use monomial::variables::variables_of;

// Whether each word of s is a maximum.
fn in_range(s: &[u8]) -> bool
    ensures { result ≡ spec.all_in_range (words s.now) }
{
    for i in 0..s.len() / 4 {
        let x = words::get(s, i);
        if !(1..=32767).contains(&x) {
            return false;
        }
    }
    true
}

// Question 1: whether there are 1 to 64 variables and the bytes are one maximum a variable, each 1 to 32,767.
#[tactic(auto, unfolding(crate::specs::Tracker::maxima_lent))]
pub fn maxima_good(maxima: &[u8], variables: u32) -> bool
    ensures { result ≡ spec.maxima_lent variables maxima.now }
{
    monomial::sizes::variables_fit(variables as usize)
        && maxima.len() == 4 * variables as usize
        && in_range(maxima)
}

// Raises the maxima to the powers of the monomial at the front of a slice; stops at the first variable that is not above its maximum.
pub fn update(maxima: &mut [u8], variables: u32, monomial: &[u8])
    requires maxima_len { length maxima.old ≡ 4 * variables }
    requires maxima { spec.Maxima variables (words maxima.old) }
    requires starts { Starts 1 variables (words monomial.now) }
    ensures { maxima.new ≡ paste_w maxima.old 0 (spec.updated (first 1 (words monomial.now)) (words maxima.old)) }
{
    for w in variables_of(monomial) {
        let v = words::id(w) as usize;
        let p = words::power(w);
        if p <= words::get(maxima, v) {
            return;
        }
        words::put(maxima, v, p);
    }
}

// The sum of the maxima.
fn total(maxima: &[u8], variables: u32) -> u32
    requires { spec.Maxima variables (words maxima.now) }
    ensures { result ≡ spec.total (words maxima.now) }
{
    let mut sum: u32 = 0;
    for i in 0..variables as usize {
        sum += words::get(maxima, i);
    }
    sum
}

// Whether the sum of the maxima has grown, since it was 1 a variable, by more than a percentage of itself.
pub fn has_grown_beyond_percentage(maxima: &[u8], variables: u32, percentage: u8) -> bool
    requires { spec.Maxima variables (words maxima.now) }
    ensures { result ≡ spec.grown variables (words maxima.now) percentage }
{
    let t = total(maxima, variables);
    u32::from(percentage) < (t - variables) * 100 / t
}
