// Sizes: of a list and of an element that are answered, and of a digest. Where there is none they are 0, which the laws of the grammar add up.
ghost use Rattle.std.specs.Prelude.{◌≡◌, ◌≤◌};
ghost use Rattle.policy_grammar.specs.Grammar.{digest_length};
ghost use Rattle.policy_answers.specs.Answers.{element_size, list_size};

use crate::{ElementAt, ListAt};

// The size of a list, 0 where there is none.
pub fn list_size(l: Option<ListAt>) -> usize
    ensures { result ≡ list_size l }
{
    l.map_or(0, |l| l.size)
}

// The size of an element, 0 where there is none.
pub fn element_size(e: Option<ElementAt>) -> usize
    ensures { result ≡ element_size e }
{
    e.map_or(0, |e| e.size)
}

// The length of a digest under an algorithm, 0 for one that is not of the grammar.
pub fn digest_length(alg: usize) -> usize
    ensures { (result ≡ digest_length alg) × (result ≤ 64) }
{
    match alg {
        0x0004 => 20,
        0x000B | 0x0012 => 32,
        0x000C => 48,
        0x000D => 64,
        _ => 0,
    }
}
