// The limits of a query: by the tag of a branch, the largest key whose other side may have a divisor.
ghost use Rattle.std.specs.Prelude.{Bool, true, ◌≤◌, length};
ghost use Rattle.words.specs.Words.{words};
ghost use Rattle.monomial.specs.Monomial.{Canonical};
ghost use Rattle.index_image.specs.Shape as at;
ghost use Rattle.query_writing.specs.Written.{limit_for, Limited};

use index_image::Shape;

// Lets every key pass.
fn pass_all(q: &mut [u8], s: Shape)
    requires in_range { at.InRange s }
    requires in_bounds { 368 ≤ length q.old }
    ensures { Limited (words q.new) s (λ v. 4294967295) }
{
    for v in 0..s.variables {
        words::put(q, 1 + s.kind + v, 4294967295);
    }
}

// Limits each variable up to the highest of a monomial to its power.
fn set_powers(q: &mut [u8], s: Shape, m: &[u8])
    requires in_range { at.InRange s }
    requires in_bounds { 368 ≤ length q.old }
    requires canonical { Canonical 1 s.variables (words m.now) }
    requires limited { Limited (words q.old) s (λ v. 4294967295) }
    ensures { Limited (words q.new) s (limit_for true (words m.now)) }
{
    let top = words::id(words::get(m, 0)) as usize;
    words::runs::clear(q, 1 + s.kind, top + 1);
    for w in monomial::variables::variables_of(m) {
        words::put(q, 1 + s.kind + words::id(w) as usize, words::power(w));
    }
}

// Writes the limits for the monomial to be divided, where it is an lm's; keys say nothing of signature monomials.
pub fn limit(q: &mut [u8], s: Shape, lm: bool, m: &[u8])
    requires in_range { at.InRange s }
    requires in_bounds { 368 ≤ length q.old }
    requires canonical { Canonical 1 s.variables (words m.now) }
    ensures { Limited (words q.new) s (limit_for lm (words m.now)) }
{
    pass_all(q, s);
    if lm {
        set_powers(q, s, m);
    }
}
