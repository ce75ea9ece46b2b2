//! What the repository's programs share: input that is read to its end, and words, low byte first, split off bytes and joined into them.
#![tactic(auto)]

ghost use Rattle.std.specs.Prelude.{◌≡◌, [], ◌∷◌, ◌++◌, ◌+◌, ◌*◌, ◌<◌, ◌≤◌, IfOk, IfSome, MatchOption, drop, get_or, length, map, take};
ghost use Rattle.std.specs.List.{concat};
ghost use Rattle.std.specs.Io.KnownBytes.{Consumes, IsAtEnd};
ghost use Rattle.words.specs.Kinds.{end_word, var_word};
ghost use Rattle.words.specs.Words.{words, bytes};

use std::alloc::{AllocError, Global};
use std::io;
use std::io::Read;

/// Reads until `buf` is full or the input ends, and returns how many bytes it put at the front of `buf`. It asks for no byte past
/// these. A read that fails ends it. What stands in `buf` behind them, or after a failure, is up to the reader, of whose `read` no
/// clause says it.
pub fn read_full<R: Read>(reader: &mut R, buf: &mut [u8]) -> io::Result<usize>
    ensures bound { IfOk result (λ n. n ≤ length buf.new) }
    ensures bytes { IfOk result (λ n. Consumes (R.remaining reader.old) (R.remaining reader.new) (take n buf.new)) }
    ensures end { IfOk result (λ n. n < length buf.new → IsAtEnd (R.remaining reader.new)) }
{
    let mut done = 0;
    // No `for`: how far it has come is what `read` answers.
    while done < buf.len() {
        let n = reader.read(&mut buf[done..])?;
        if n == 0 {
            return Ok(done);
        }
        done += n;
    }
    Ok(done)
}

/// Word i, where s has one.
pub fn word_at(s: &[u8], i: usize) -> Option<u32>
    ensures { MatchOption result (length s.now < 4 * i + 4) (λ w. w ≡ get_or (words s.now) i 0) }
{
    if i < s.len() / 4 {
        Some(words::get(s, i))
    } else {
        None
    }
}

/// Splits the first word off the front. Where that has no four bytes it stays as it is.
pub fn split_off_word(rest: &mut &[u8]) -> Option<u32>
    ensures { MatchOption result ((length rest.old.now < 4) × (rest.new.now ≡ rest.old.now)) (λ w. (w ≡ get_or (words rest.old.now) 0 0) × ((rest.new.now ≡ drop 4 rest.old.now) × (length rest.new.now + 4 ≡ length rest.old.now))) }
{
    let (_, behind) = rest.split_at_checked(4)?;
    let word = words::get(rest, 0);
    *rest = behind;
    Some(word)
}

/// The record at the front, whose first word is its length in words, and what stands behind it. It has `least` bytes or more.
pub fn split_record(s: &[u8], least: usize) -> Option<(&[u8], &[u8])>
    ensures parts { IfSome result (λ p. (p.0.now ++ p.1.now ≡ s.now) × (length p.0.now ≡ 4 * get_or (words s.now) 0 0)) }
    ensures least { IfSome result (λ p. (least ≤ length p.0.now) × (length p.1.now + least ≤ length s.now)) }
{
    let n = 4 * word_at(s, 0)? as usize;
    if n < least {
        return None;
    }
    s.split_at_checked(n)
}

/// The records from the front on, and what is left where no further one stands.
pub fn records(alloc: Global, input: &[u8], least: usize) -> Result<(Vec<&[u8]>, &[u8]), AllocError>
    requires { 0 < least }
    ensures { IfOk result (λ p. concat (map (λ r. r.now) p.0.items) ++ p.1.now ≡ input.now) }
{
    let mut found = Vec::new(alloc);
    let mut rest = input;
    while let Some((record, behind)) = split_record(rest, least) {
        found.push(record)?;
        rest = behind;
    }
    Ok((found, rest))
}

/// The bytes of words.
pub fn bytes_of(alloc: Global, list: &[u32]) -> Result<Vec<u8>, AllocError>
    ensures { IfOk result (λ v. v.items ≡ bytes list.now) }
{
    let mut v = Vec::new(alloc);
    for w in list {
        v.extend_from_slice(&w.to_le_bytes())?;
    }
    Ok(v)
}

/// The bytes of a monomial, of its variables' numbers and powers, which fall by the number in one that is canonical.
pub fn monomial(alloc: Global, powers: &[(u8, u16)]) -> Result<Vec<u8>, AllocError>
    requires { length powers.now ≤ 64 }
    ensures { IfOk result (λ v. v.items ≡ bytes (map (λ p. var_word 1 p.0 p.1) powers.now ++ end_word (length powers.now) ∷ [])) }
{
    let mut list = Vec::new(alloc);
    for factor in powers {
        let (variable, power) = *factor;
        list.push(words::variable_word(u32::from(variable), u32::from(power)))?;
    }
    list.push(words::end_word(powers.len() as u32))?;
    bytes_of(alloc, list.as_slice())
}

#[test]
fn reads_what_fits(rt: HostRuntime) -> io::Result<()> {
    let mut reader: &[u8] = b"abcde";
    let mut buf = [0u8; 3];
    let first = read_full(&mut reader, &mut buf)?;
    assert!(rt; first == 3);
    assert!(rt; buf == *b"abc");
    let second = read_full(&mut reader, &mut buf)?;
    assert!(rt; second == 2);
    assert!(rt; buf == *b"dec");
    let third = read_full(&mut reader, &mut buf)?;
    assert!(rt; third == 0);
    Ok(())
}

#[test]
fn splits_what_was_joined(rt: HostRuntime) -> Result<(), AllocError> {
    let joined = bytes_of(rt.alloc(), &[0x04030201, 7])?;
    assert!(rt; joined.as_slice() == b"\x01\x02\x03\x04\x07\0\0\0".as_slice());
    let mut rest = &joined.as_slice()[..7];
    assert!(rt; split_off_word(&mut rest) == Some(0x04030201));
    assert!(rt; split_off_word(&mut rest).is_none());
    assert!(rt; rest.len() == 3);
    Ok(())
}

#[test]
fn finds_the_records(rt: HostRuntime) -> Result<(), AllocError> {
    let input = bytes_of(rt.alloc(), &[2, 9, 1, 5])?;
    let (found, rest) = records(rt.alloc(), input.as_slice(), 4)?;
    assert!(rt; found.len() == 2);
    assert!(rt; rest.len() == 4);
    Ok(())
}
