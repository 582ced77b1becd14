// The list and the element that stand at an offset of a string, by the numbers of their fields.
ghost use Rattle.std.specs.Prelude.{◌≡◌, ◌+◌, ◌<◌, ◌^◌, length, drop};
ghost use Rattle.policy_grammar.specs.Parser.{value_of};
ghost use Rattle.policy_grammar.specs.Decode as Decode;
ghost use Rattle.policy_answers.specs.Answers.{element_shown, list_shown};
ghost use Rattle.policy_reader.specs.Inner.{body_numbers};
ghost use Rattle.policy_reader.specs.Offsets.{ElementAtExactly, ListAtExactly};

use crate::SIGNED;
use crate::elements::element_extent;
use crate::lists::list_extent;
use crate::numbers::number;
use policy_answers::{
    CUSTOM_TYPE, ElementAt, ElementBody, LAUNCH_TYPE, ListAt, STM_TYPE, SigningAt,
};

// The numbers of the body of the element at the front of t, by its type.
fn body(t: &[u8], kind: usize) -> ElementBody
    ensures { result ≡ body_numbers t.now kind }
{
    match kind {
        LAUNCH_TYPE => ElementBody::Launch {
            sinit_min_version: number(t, 12, 1),
            reserved: number(t, 13, 1),
            hash_alg: number(t, 14, 2),
            count: number(t, 16, 2),
        },
        STM_TYPE => ElementBody::Stm {
            hash_alg: number(t, 12, 2),
            count: number(t, 14, 2),
        },
        CUSTOM_TYPE => ElementBody::Custom,
        _ => ElementBody::Unjudged { kind },
    }
}

// The element at the front of t, which stands at `start`.
#[inline(always)]
fn first_element(t: &[u8], start: usize) -> Option<ElementAt>
    ensures { result ≡ element_shown start (value_of (Decode.element t.now)) }
{
    let size = element_extent(t, 0).ok()?;
    Some(ElementAt {
        start,
        size,
        control: number(t, 8, 4),
        body: body(t, number(t, 4, 4)),
    })
}

// The element that stands at `at` in s. It is put into its callers, as are the functions of a list: an answer goes through memory at a call, and then a
// walk over elements of 12 bytes takes twice as long.
#[inline(always)]
pub fn element_at(s: &[u8], at: usize) -> Option<ElementAt>
    ensures { (result ≡ element_shown at (value_of (Decode.element (drop at s.now)))) × ElementAtExactly s.now at result }
{
    first_element(s.get(at..)?, at)
}

// The list at the front of t, which stands at `start`.
#[inline(always)]
fn first_list(t: &[u8], start: usize) -> Option<ListAt>
    requires { start + length t.now < 2 ^ 64 }
    ensures { result ≡ list_shown start (value_of (Decode.list t.now)) }
{
    let size = list_extent(t, 0).ok()?;
    let elements_size = number(t, 4, 4);
    let list = ListAt {
        start,
        size,
        version: number(t, 0, 2),
        elements: start + 8,
        elements_size,
        signing: None,
    };
    if number(t, 2, 2) != SIGNED {
        return Some(list);
    }
    let end = 8 + elements_size;
    let key_size = number(t, end + 2, 2);
    let key = start + end + 4;
    let signing = SigningAt {
        counter: number(t, end, 2),
        key_size,
        key,
        signature: key + key_size,
    };
    Some(ListAt {
        signing: Some(signing),
        ..list
    })
}

// The list that stands at `at` in s.
#[inline(always)]
pub fn list_at(s: &[u8], at: usize) -> Option<ListAt>
    ensures { (result ≡ list_shown at (value_of (Decode.list (drop at s.now)))) × ListAtExactly s.now at result }
{
    first_list(s.get(at..)?, at)
}
