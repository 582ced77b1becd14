// Elements, field by field in file order: how many bytes one takes, whether elements fill a part, or where the first fault is.
ghost use Rattle.std.specs.Prelude.{◌≡◌, ◌≤◌, length, drop};
ghost use Rattle.policy_grammar.specs.Format.{many};
ghost use Rattle.policy_grammar.specs.Parser.{value_of, is_some, read, filling};
ghost use Rattle.policy_grammar.specs.Layout as Layout;
ghost use Rattle.policy_reader.specs.Bodies.{BodyExactly};
ghost use Rattle.policy_reader.specs.Inner.{extent_of};

use crate::extents::further;
use crate::numbers::number;
use field::Fault;
use policy_answers::{LAUNCH_TYPE, STM_TYPE, digest_length};

// The digests of an algorithm, which fill t: HashAlg, a count, and exactly that many digests of its length.
fn digests_extent(t: &[u8]) -> Result<usize, Fault>
    ensures { result ≡ extent_of (filling Layout.digests t.now) }
{
    let length = digest_length(field::read(t, 0, 2)? as usize);
    if length == 0 {
        return Err(Fault { at: 0 });
    }
    let count = field::read(t, 2, 2)? as usize;
    let end = 4 + count * length;
    if t.len() < end {
        return Err(Fault { at: 2 });
    }
    if end < t.len() {
        return Err(Fault { at: end });
    }
    Ok(end)
}

// The body of a launch element, which fills b: SINITMinVersion, a reserved byte, digests.
fn launch_extent(b: &[u8]) -> Result<usize, Fault>
    ensures { result ≡ extent_of (filling Layout.launch b.now) }
{
    field::read(b, 0, 1)?;
    field::read(b, 1, 1)?;
    further(2, digests_extent(&b[2..]))
}

// The body of an element of a type, which fills b.
fn body_extent(kind: usize, b: &[u8]) -> Result<usize, Fault>
    ensures { result ≡ extent_of (filling (Layout.body kind) b.now) }
{
    match kind {
        LAUNCH_TYPE => launch_extent(b),
        STM_TYPE => digests_extent(b),
        _ => Ok(b.len()),
    }
}

// Whether the bytes are a body of an element of the type by the grammar. It is the judge of the reader's elements, for one who writes them.
pub fn fills_body(kind: usize, body: &[u8]) -> bool
    ensures { (result ≡ is_some (value_of (filling (Layout.body kind) body.now))) × BodyExactly kind body.now result }
{
    body_extent(kind, body).is_ok()
}

// The element at the front of t. Its body is judged as the part of t that it is.
fn first_extent(t: &[u8]) -> Result<usize, Fault>
    ensures { result ≡ extent_of (read Layout.element t.now) }
{
    let size = field::read(t, 0, 4)? as usize;
    if size < 12 {
        return Err(Fault { at: 0 });
    }
    if t.len() < size {
        return Err(Fault { at: 0 });
    }
    let kind = number(t, 4, 4);
    // The body fills its part, so its length need not be known before the next element is read.
    further(12, body_extent(kind, &t[12..size]))?;
    Ok(size)
}

// The element that stands at `at` in t. It is handed all of t, so that a loop goes on by an offset and makes no slice for each element.
pub(crate) fn element_extent(t: &[u8], at: usize) -> Result<usize, Fault>
    requires { at ≤ length t.now }
    ensures { result ≡ extent_of (read Layout.element (drop at t.now)) }
{
    first_extent(&t[at..])
}

// The elements that fill t.
pub(crate) fn elements_extent(t: &[u8]) -> Result<usize, Fault>
    ensures { result ≡ extent_of (filling (many (length t.now) Layout.element) t.now) }
{
    let mut at = 0;
    while at < t.len() {
        // The size is added in a branch of its own: with `at = further(at, ..)?` the next offset waits for both cases, and a file of small elements took
        // 1.5 to 2.4 times as long to read.
        match element_extent(t, at) {
            Ok(size) => at += size,
            Err(f) => return Err(Fault { at: at + f.at }),
        }
    }
    Ok(at)
}
