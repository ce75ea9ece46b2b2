// The calls of a list, and the parts of their bodies. A body is what stands behind the word that begins a call, up to the next such word.
#![tactic(auto)]

ghost use Rattle.std.specs.Prelude.{◌≡◌, true, List, ◌↔◌, ℕ, ◌≤◌, ◌<◌, eqb, length};
ghost use Rattle.words.specs.Kinds.{kind};
ghost use Rattle.words.specs.Words.{words};
ghost use Rattle.monomial.specs.Monomial.{number};
ghost use Rattle.index_theory.specs.Calls.{body_of, calls};
ghost use Rattle.call_list.specs.Bodies.{IsList, Body, Leads, Begins, Single, Paired, Tripled};

use monomial::Kind;
use refusals::Refusal;

// A call: its number, and its body.
#[derive(Clone, Copy)]
pub struct Call<'a> {
    pub number: u32,
    pub body: &'a [u8],
}

// Whether w begins a call.
fn is_call(w: u32) -> bool
    ensures { result ≡ eqb (kind w) 6 }
{
    words::kind(w) == words::CALL
}

// Question 4: a whole number of words, empty or starting with kind 6.
pub fn is_list(list: &[u8]) -> bool
    ensures { (result ≡ true) ↔ IsList list.now }
{
    list.len() % 4 == 0 && (list.len() == 0 || is_call(words::get(list, 0)))
}

// How many calls the list has.
pub fn count(list: &[u8]) -> usize
    ensures { result ≡ length (calls (words list.now)) }
{
    let mut n: usize = 0;
    for i in 0..list.len() / 4 {
        n += usize::from(is_call(words::get(list, i)));
    }
    n
}

// How many words stand in front of the next call, or of the end of the list.
fn body_words(list: &[u8]) -> usize
    ensures { result ≡ length (body_of (words list.now)) }
{
    let n = list.len() / 4;
    for i in 0..n {
        if is_call(words::get(list, i)) {
            return i;
        }
    }
    n
}

// The words in front of the next call, or of the end of the list.
pub fn body(list: &[u8]) -> &[u8]
    ensures { Body list.now result.now }
{
    let n = body_words(list);
    &list[..4 * n]
}

// The index that a body begins with, and what stands behind it.
fn index(body: &[u8]) -> Result<(u32, &[u8]), Refusal>
    ensures { Leads (words body.now) result }
{
    if body.len() < 4 {
        return Err(Refusal::BadWords);
    }
    let w = words::get(body, 0);
    if words::kind(w) != words::INDEX {
        return Err(Refusal::BadWords);
    }
    Ok((words::payload(w), &body[4..]))
}

// The monomial or ratio that a body begins with, and what stands behind it.
fn part(kind: Kind, body: &[u8], variables: u32) -> Result<(&[u8], &[u8]), Refusal>
    ensures { Begins (number kind) variables (words body.now) result }
{
    let x = monomial::canonical_at(body, 0, kind, variables);
    if x.len() == 0 {
        return Err(Refusal::BadWords);
    }
    Ok((x, &body[x.len()..]))
}

// The monomial that a body is.
pub fn single(body: &[u8], variables: u32) -> Result<&[u8], Refusal>
    ensures { Single variables (words body.now) result }
{
    let (m, rest) = part(Kind::Monomial, body, variables)?;
    if 4 <= rest.len() {
        return Err(Refusal::BadWords);
    }
    Ok(m)
}

// The index and the monomial behind it that a body is.
pub fn pair(body: &[u8], variables: u32) -> Result<(u32, &[u8]), Refusal>
    ensures { Paired variables (words body.now) result }
{
    let (index, rest) = index(body)?;
    let monomial = single(rest, variables)?;
    Ok((index, monomial))
}

// The index, the monomial or ratio behind it and the monomial behind that which a body is.
pub fn triple(kind: Kind, body: &[u8], variables: u32) -> Result<(u32, &[u8], &[u8]), Refusal>
    ensures { Tripled (number kind) variables (words body.now) result }
{
    let (index, rest) = index(body)?;
    let (x, rest) = part(kind, rest, variables)?;
    let m = single(rest, variables)?;
    Ok((index, x, m))
}
