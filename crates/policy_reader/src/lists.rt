// Lists, field by field in file order: how many bytes one takes, whether so many lists fill a part, or where the first fault is.
ghost use Rattle.std.specs.Prelude.{◌≡◌, ◌≤◌, ◌||◌, length, drop, eqb};
ghost use Rattle.policy_grammar.specs.Grammar.{unsigned_algorithm};
ghost use Rattle.policy_grammar.specs.Format.{times};
ghost use Rattle.policy_grammar.specs.Parser.{read, filling};
ghost use Rattle.policy_grammar.specs.Layout as Layout;
ghost use Rattle.policy_grammar.specs.Layout.{known_version};
ghost use Rattle.policy_reader.specs.Inner.{extent_of};

use crate::elements::elements_extent;
use crate::extents::further;
use crate::{SIGNED, UNSIGNED};
use field::Fault;

// Whether a key may have the size.
fn known_key_size(size: usize) -> bool
    ensures { result ≡ (eqb size 256 || eqb size 384) }
{
    matches!(size, 256 | 384)
}

// What signs a list, at the front of t. The key size answers for the key and the signature.
fn signed_extent(t: &[u8]) -> Result<usize, Fault>
    ensures { result ≡ extent_of (read Layout.signed t.now) }
{
    field::read(t, 0, 2)?;
    let size = field::read(t, 2, 2)? as usize;
    if !known_key_size(size) {
        return Err(Fault { at: 2 });
    }
    let end = 4 + size + size;
    if t.len() < end {
        return Err(Fault { at: 2 });
    }
    Ok(end)
}

// Whether a list may have the version.
pub fn known_version(version: usize) -> bool
    ensures { result ≡ known_version version }
{
    matches!(version, 0x0200 | 0x0201)
}

// Whether a list may have the signature algorithm.
fn known_algorithm(algorithm: usize) -> bool
    ensures { result ≡ (eqb algorithm unsigned_algorithm || eqb algorithm 0x0014) }
{
    matches!(algorithm, UNSIGNED | SIGNED)
}

// The list at the front of t.
#[inline(always)]
fn first_extent(t: &[u8]) -> Result<usize, Fault>
    ensures { result ≡ extent_of (read Layout.list t.now) }
{
    let version = field::read(t, 0, 2)? as usize;
    if !known_version(version) {
        return Err(Fault { at: 0 });
    }
    let algorithm = field::read(t, 2, 2)? as usize;
    if !known_algorithm(algorithm) {
        return Err(Fault { at: 2 });
    }
    let end = 8 + field::read(t, 4, 4)? as usize;
    if t.len() < end {
        return Err(Fault { at: 4 });
    }
    further(8, elements_extent(&t[8..end]))?;
    if algorithm == SIGNED {
        return further(end, signed_extent(&t[end..]));
    }
    Ok(end)
}

// The list that stands at `at` in t.
#[inline(always)]
pub(crate) fn list_extent(t: &[u8], at: usize) -> Result<usize, Fault>
    requires { at ≤ length t.now }
    ensures { result ≡ extent_of (read Layout.list (drop at t.now)) }
{
    first_extent(&t[at..])
}

// The n lists that fill t.
pub(crate) fn lists_extent(t: &[u8], n: usize) -> Result<usize, Fault>
    ensures { result ≡ extent_of (filling (times n Layout.list) t.now) }
{
    let mut at = 0;
    for _ in 0..n {
        at = further(at, list_extent(t, at))?;
    }
    if at < t.len() {
        return Err(Fault { at });
    }
    Ok(at)
}
