// Lists, keys, signatures and elements of a string, by number.
ghost use Rattle.std.specs.Prelude.{◌≡◌, ◌+◌, ◌≤◌, ℕ, List, length, drop, Option, Some};
ghost use Rattle.field.specs.Number.{Bytes};
ghost use Rattle.policy_grammar.specs.Parser.{value_of};
ghost use Rattle.policy_grammar.specs.Decode.{accepted};
ghost use Rattle.policy_grammar.specs.Decode as Decode;
ghost use Rattle.policy_answers.specs.Answers.{list_shown, list_answer, key_answer, signature_answer, element_shown, element_answer};
ghost use Rattle.policy_reader.proofs.Standing.{list_within, element_within};
ghost use Rattle.policy.specs.Inner.{walked};

use policy_answers::{ElementAt, ListAt, Part, elements_of, key_of, signature_of};
use policy_reader::{FIRST_LIST, element_at, list_at, read};

// What stands one after the other in a string: lists, and the elements of a list.
trait Standing: Copy {
    ghost read: { List ℕ → ℕ → Option Self };

    ghost size: { Self → ℕ };

    // The one that stands at an offset.
    fn stands_at(s: &[u8], at: usize) -> Option<Self>
        ensures { result ≡ read s.now at };

    // How many bytes it has.
    fn size(self) -> usize
        ensures { result ≡ size self };

    // It ends within the string.
    ghost within: { (s : List ℕ) (at : ℕ) (x : Self) → Bytes s → read s at ≡ Some x → at + size x ≤ length s };
}

impl Standing for ListAt {
    ghost read = { λ s at. list_shown at (value_of (Decode.list (drop at s))) };

    ghost size = { λ l. l.size };

    ghost within = { list_within };

    fn stands_at(s: &[u8], at: usize) -> Option<ListAt> {
        list_at(s, at)
    }

    fn size(self) -> usize {
        self.size
    }
}

impl Standing for ElementAt {
    ghost read = { λ s at. element_shown at (value_of (Decode.element (drop at s))) };

    ghost size = { λ e. e.size };

    ghost within = { element_within };

    fn stands_at(s: &[u8], at: usize) -> Option<ElementAt> {
        element_at(s, at)
    }

    fn size(self) -> usize {
        self.size
    }
}

// The one with the number k of those that stand in s from `start` on.
fn numbered<T: Standing>(s: &[u8], start: usize, k: usize) -> Option<T>
    requires { start ≤ length s.now }
    ensures { result ≡ walked T.read T.size s.now start k }
{
    let mut at = start;
    for _ in 0..k {
        at += T::stands_at(s, at)?.size();
    }
    T::stands_at(s, at)
}

// The list number i of s.
pub fn list(s: &[u8], i: usize) -> Option<ListAt>
    ensures { result ≡ list_answer (accepted s.now) i }
{
    read(s).ok()?;
    numbered(s, FIRST_LIST, i)
}

// The key of the list number i.
pub fn key(s: &[u8], i: usize) -> Option<Part>
    ensures { result ≡ key_answer (accepted s.now) i }
{
    key_of(list(s, i))
}

// The signature of the list number i.
pub fn signature(s: &[u8], i: usize) -> Option<Part>
    ensures { result ≡ signature_answer (accepted s.now) i }
{
    signature_of(list(s, i))
}

// The element number j of the list number i.
pub fn element(s: &[u8], i: usize, j: usize) -> Option<ElementAt>
    ensures { result ≡ element_answer (accepted s.now) i j }
{
    let elements = elements_of(list(s, i))?;
    let end = elements.start + elements.len;
    numbered(&s[..end], elements.start, j)
}
