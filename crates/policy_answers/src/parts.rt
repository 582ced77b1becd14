// Parts: those of a list, and the bytes of a part where they stand.
ghost use Rattle.std.specs.Prelude.{◌≡◌, drop};
ghost use Rattle.policy_answers.specs.Answers.{elements_of, key_of, signature_of};
ghost use Rattle.policy_answers.specs.Parts.{part_at, body_of};

use crate::{ElementAt, ListAt, Part};

// The elements of a list.
pub fn elements_of(l: Option<ListAt>) -> Option<Part>
    ensures { result ≡ elements_of l }
{
    l.map(|l| Part {
        start: l.elements,
        len: l.elements_size,
    })
}

// The key of a list, where it is signed. Key and signature differ in a field alone; a function over the field would be longer than both.
pub fn key_of(l: Option<ListAt>) -> Option<Part>
    ensures { result ≡ key_of l }
{
    let signing = l?.signing?;
    Some(Part {
        start: signing.key,
        len: signing.key_size,
    })
}

// The signature of a list, where it is signed.
pub fn signature_of(l: Option<ListAt>) -> Option<Part>
    ensures { result ≡ signature_of l }
{
    let signing = l?.signing?;
    Some(Part {
        start: signing.signature,
        len: signing.key_size,
    })
}

// The `len` bytes from `start` on; none where they are not all in s.
pub fn part_at(s: &[u8], start: usize, len: usize) -> &[u8]
    ensures { result.now ≡ part_at s.now start len }
{
    let Some(rest) = s.get(start..) else {
        return &s[..0];
    };
    rest.get(..len).unwrap_or(&s[..0])
}

// The bytes of an element after its first 12; none where they are not all in s.
fn after_head(s: &[u8], start: usize, size: usize) -> &[u8]
    ensures { result.now ≡ drop 12 (part_at s.now start size) }
{
    part_at(s, start, size).get(12..).unwrap_or(&s[..0])
}

// The body of an element; no bytes where there is none.
pub fn body(s: &[u8], e: Option<ElementAt>) -> &[u8]
    ensures { result.now ≡ body_of s.now e }
{
    match e {
        Some(e) => after_head(s, e.start, e.size),
        None => &s[..0],
    }
}
