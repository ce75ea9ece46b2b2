// The entries of a leaf, visited in their order: one loop for each thing that can be made of an entry.
#![tactic(auto)]

pub mod step;

ghost use Rattle.std.specs.Prelude.{◌≡◌, true, ◌&&◌, ℕ, ◌+◌, ◌*◌, ◌<◌, ◌≤◌, leb, ltb, length, get_or};
ghost use Rattle.words.specs.Words.{words};
ghost use Rattle.index_image.specs.Shape as at;
ghost use Rattle.index_image.specs.Rows.{entries_from};
ghost use Rattle.index_image.specs.Walk as walk;
ghost use Rattle.query_words.specs.Asked.{shape_in, search_in, from_in};
ghost use Rattle.kd_leaf.specs.Packed.{rows_of, best_of, on_of};
ghost use Rattle.kd_leaf.specs.Visited.{Known, ReadyEntries, First, Visited};
ghost use Rattle.kd_leaf.specs.Counted.{may_at, divisor_at, counted, least_above};

use query_words as query;
use query_words::{Query, Search};

// What is asked, by a query's words and the monomial that is to be divided, of the c entries of an image from place lo on.
#[derive(Clone, Copy)]
struct Asked<'a> {
    image: &'a [u8],
    query: Query<'a>,
    monomial: &'a [u8],
    lo: usize,
    c: usize,
    ghost inside: { lo + c ≤ (shape_in (words query.bytes.now)).entries },
    ghost known: { ∥ Known image.now monomial.now (shape_in (words query.bytes.now)) (words query.bytes.now) ∥₁ },
}

impl Asked<'_> {
    // The i-th of the entries.
    fn entry(&self, i: usize) -> usize
        requires { i < self.now.c }
        ensures { (result ≡ get_or (words self.now.image.now) (at.permutation_at (shape_in (words self.now.query.bytes.now)) + (self.now.lo + i)) 0) × ((result < (shape_in (words self.now.query.bytes.now)).entries) × (result < 4096)) }
    {
        self.query.entry_at(self.image, self.lo + i)
    }

    // Whether mask and short exponent vector of entry e leave it open that it divides.
    fn may(&self, e: usize) -> bool
        requires { e < (shape_in (words self.now.query.bytes.now)).entries }
        ensures { result ≡ may_at (words self.now.image.now) (words self.now.query.bytes.now) e }
    {
        let at = self.query.num(query::MASK_AT) + e * self.query.num(query::ENTRY_WIDTH);
        divmask::pairs::within(
            words::pairs::get(self.image, at),
            self.query.pair(query::MASK),
        )
    }

    // Whether entry e divides, the mask left open.
    fn divides(&self, e: usize) -> bool
        requires { e < (shape_in (words self.now.query.bytes.now)).entries }
        ensures { result ≡ divisor_at (words self.now.image.now) (shape_in (words self.now.query.bytes.now)) (words self.now.query.bytes.now) (words self.now.monomial.now) e }
    {
        let at = 4 * (self.query.num(query::SLOT) + e * self.query.num(query::ENTRY_WIDTH));
        monomial::divides(&self.image[at..], self.monomial)
    }

    // Whether entry e divides.
    fn is_divisor(&self, e: usize) -> bool
        requires { e < (shape_in (words self.now.query.bytes.now)).entries }
        ensures { result ≡ divisor_at (words self.now.image.now) (shape_in (words self.now.query.bytes.now)) (words self.now.query.bytes.now) (words self.now.monomial.now) e }
    {
        self.may(e) && self.divides(e)
    }

    // Whether entry e divides and has a label from `least` on that counts. Masks are asked first, then labels.
    fn counts(&self, e: usize, least: u64) -> bool
        requires inside { e < (shape_in (words self.now.query.bytes.now)).entries }
        requires labelled { (shape_in (words self.now.query.bytes.now)).kind ≡ 1 }
        ensures { result ≡ counted (words self.now.image.now) (shape_in (words self.now.query.bytes.now)) (words self.now.query.bytes.now) (words self.now.monomial.now) least e }
    {
        if !self.may(e) {
            return false;
        }
        let l = self.query.label(self.image, e);
        least <= l && l < self.query.pair(query::TO) && self.divides(e)
    }

    // From which label on an entry counts that is to be larger than the one found.
    fn least_above(&self, found: usize) -> u64
        requires labelled { (shape_in (words self.now.query.bytes.now)).kind ≡ 1 }
        requires found_bound { found ≤ (shape_in (words self.now.query.bytes.now)).entries }
        ensures { result ≡ least_above (walk.label (words self.now.image.now) (shape_in (words self.now.query.bytes.now))) (from_in (words self.now.query.bytes.now)) found }
    {
        let from = self.query.pair(query::FROM);
        if found == 0 {
            return from;
        }
        from.max(self.query.label(self.image, found - 1) + 1)
    }

    // The first of the entries that passes the test.
    fn first<F: Fn(usize) -> bool>(&self, test: F) -> Option<usize>
        requires { (e : ℕ) → e < (shape_in (words self.now.query.bytes.now)).entries → F.pre test e }
        ensures { First (λ e passes. (e < (shape_in (words self.now.query.bytes.now)).entries) × F.post test e passes) (entries_from (words self.now.image.now) (shape_in (words self.now.query.bytes.now)) self.now.lo self.now.c) result }
    {
        for i in 0..self.c {
            let e = self.entry(i);
            if test(e) {
                return Some(e);
            }
        }
        None
    }

    // Stops at the first divisor. What is known of `acc`, the walk's number in a register, is a clause here and below.
    fn contained(&self, acc: u64) -> u64
        requires acc_value { (best_of acc ≤ (shape_in (words self.now.query.bytes.now)).entries) × (on_of acc ≡ true) }
        requires searched { search_in (words self.now.query.bytes.now) ≡ 0 }
        ensures { Visited self.now.image.now self.now.monomial.now (shape_in (words self.now.query.bytes.now)) (words self.now.query.bytes.now) self.now.lo self.now.c (best_of acc) (best_of result) (on_of result) × (rows_of result ≡ rows_of acc) }
    {
        step::after(acc, self.first(|e| self.is_divisor(e)))
    }

    // Stops at the first that counts.
    fn singular(&self, acc: u64) -> u64
        requires acc_value { (best_of acc ≤ (shape_in (words self.now.query.bytes.now)).entries) × (on_of acc ≡ true) }
        requires searched { search_in (words self.now.query.bytes.now) ≡ 4 }
        ensures { Visited self.now.image.now self.now.monomial.now (shape_in (words self.now.query.bytes.now)) (words self.now.query.bytes.now) self.now.lo self.now.c (best_of acc) (best_of result) (on_of result) × (rows_of result ≡ rows_of acc) }
    {
        let from = self.query.pair(query::FROM);
        step::after(acc, self.first(|e| self.counts(e, from)))
    }

    // Stops at the first regular one, and keeps the last singular one.
    fn reducer(&self, acc: u64) -> u64
        requires acc_value { (best_of acc ≤ (shape_in (words self.now.query.bytes.now)).entries) × (on_of acc ≡ true) }
        requires searched { search_in (words self.now.query.bytes.now) ≡ 1 }
        ensures { Visited self.now.image.now self.now.monomial.now (shape_in (words self.now.query.bytes.now)) (words self.now.query.bytes.now) self.now.lo self.now.c (best_of acc) (best_of result) (on_of result) × (rows_of result ≡ rows_of acc) }
    {
        let from = self.query.pair(query::FROM);
        let mut found = step::best(acc);
        for i in 0..self.c {
            let e = self.entry(i);
            if self.counts(e, from) {
                if self.query.label(self.image, e) < self.query.pair(query::FLOOR) {
                    return step::stopped(acc, e + 1);
                }
                found = e + 1;
            }
        }
        step::going(acc, found)
    }

    // The first of the largest label: only an entry of a larger one than that found is divided.
    fn largest(&self, acc: u64) -> u64
        requires acc_value { (best_of acc ≤ (shape_in (words self.now.query.bytes.now)).entries) × (on_of acc ≡ true) }
        requires searched { (2 ≤ search_in (words self.now.query.bytes.now)) × (search_in (words self.now.query.bytes.now) ≤ 3) }
        ensures { Visited self.now.image.now self.now.monomial.now (shape_in (words self.now.query.bytes.now)) (words self.now.query.bytes.now) self.now.lo self.now.c (best_of acc) (best_of result) (on_of result) × (rows_of result ≡ rows_of acc) }
    {
        let mut found = step::best(acc);
        let mut least = self.least_above(found);
        for i in 0..self.c {
            let e = self.entry(i);
            if self.counts(e, least) {
                found = e + 1;
                least = self.least_above(found);
            }
        }
        step::going(acc, found)
    }

    // Visits the entries.
    #[tactic(auto, using(crate::proofs::Counting::of_the_largest))]
    fn visit(&self, acc: u64) -> u64
        requires acc_value { (best_of acc ≤ (shape_in (words self.now.query.bytes.now)).entries) × (on_of acc ≡ true) }
        ensures { Visited self.now.image.now self.now.monomial.now (shape_in (words self.now.query.bytes.now)) (words self.now.query.bytes.now) self.now.lo self.now.c (best_of acc) (best_of result) (on_of result) × (rows_of result ≡ rows_of acc) }
    {
        match self.query.search() {
            Search::Contained => self.contained(acc),
            Search::Reducer => self.reducer(acc),
            Search::High | Search::Low => self.largest(acc),
            Search::Singular => self.singular(acc),
        }
    }
}

// Visits the c entries from place lo on.
pub fn search(image: &[u8], q: Query<'_>, m: &[u8], lo: usize, c: usize, acc: u64) -> u64
    requires ready_entries { ReadyEntries image.now m.now (shape_in (words q.bytes.now)) (words q.bytes.now) lo c (best_of acc) }
    requires acc_value { on_of acc ≡ true }
    ensures { Visited image.now m.now (shape_in (words q.entry.bytes.now)) (words q.entry.bytes.now) lo c (best_of acc) (best_of result) (on_of result) × (rows_of result ≡ rows_of acc) }
{
    let asked = Asked {
        image,
        query: q,
        monomial: m,
        lo,
        c,
    };
    asked.visit(acc)
}
