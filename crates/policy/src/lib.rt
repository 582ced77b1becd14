// Policy files by number: of a string that the reader accepts any list, key, signature and element by its number, and all of it in one answer.
//
// No public function asks anything of its caller: any slice of any length, and any number. Each answer by number reads the string anew; to walk a
// string once, take the reader's `list_at` and `element_at`.
#![tactic(auto)]

use policy_answers::{ElementAt, FileFault, ListAt, Part};
use policy_reader::read;

mod numbered;

ghost use Rattle.policy.specs.Demand3.{Answered};

pub use numbered::{element, key, list, signature};

// All that the reader answers for a list number and an element number.
#[derive(Clone, Copy)]
pub struct Answers {
    pub file: Result<usize, FileFault>,
    pub list: Option<ListAt>,
    pub key: Option<Part>,
    pub signature: Option<Part>,
    pub element: Option<ElementAt>,
}

// What the reader answers of s, of the list number i and of the element number j of it. The contract is demand 3 for these numbers: it names
// the grammar, and what is seen in s of each answer, and no reader.
pub fn ask(s: &[u8], i: usize, j: usize) -> Answers
    ensures { Answered s.now i j result }
{
    Answers {
        file: read(s),
        list: list(s, i),
        key: key(s, i),
        signature: signature(s, i),
        element: element(s, i, j),
    }
}
