// The powers of a monomial laid out by variable: the way of a new entry asks for a power or two in every row.
#![tactic(auto)]

ghost use Rattle.std.specs.Prelude.{◌≡◌, List, ℕ, ◌≤◌, length};
ghost use Rattle.words.specs.Words.{words};
ghost use Rattle.monomial.specs.Monomial.{Canonical, Starts, first};
ghost use Rattle.monomial.specs.Operations as ops;
ghost use Rattle.power_table.specs.Tabled.{Powers};

use monomial::variables::variables_of;

// One word a variable.
pub type Table = [u8; 256];

// A monomial beside its powers laid out by variable.
#[derive(Clone, Copy)]
pub struct Dense<'a> {
    pub monomial: &'a [u8],
    pub table: &'a [u8],
    pub ghost room: { 256 ≤ length table.now },
    pub ghost laid: { Powers (words table.now) (words monomial.now) },
}

// Lays the powers of m out in a table.
pub fn lay(table: &mut Table, m: &[u8])
    requires { Canonical 1 64 (words m.now) }
    ensures { (length table.new ≡ 256) × Powers (words table.new) (words m.now) }
{
    words::runs::clear(table, 0, 64);
    for w in variables_of(m) {
        words::put(table, words::id(w) as usize, words::power(w));
    }
}

// Whether the monomial at the front of a slice divides the one whose powers stand in a table.
pub fn divides(a: &[u8], table: &[u8]) -> bool
    requires starts { Starts 1 4096 (words a.now) }
    requires canonical { Canonical 1 64 (first 1 (words a.now)) }
    requires in_bounds { 256 ≤ length table.now }
    ensures { (M : List ℕ) → Powers (words table.now) M → result ≡ ops.divides (first 1 (words a.now)) M }
{
    for w in variables_of(a) {
        if words::get(table, words::id(w) as usize) < words::power(w) {
            return false;
        }
    }
    true
}
