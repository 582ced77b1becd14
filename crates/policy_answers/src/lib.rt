// What the reader of policy files answers: a string, a list, a part, an element; and what is taken from such an answer, sizes and bytes.
//
// Parts are offsets and lengths in the file: C takes them so, and `Demand3` looks at each through the string. No public function asks anything of its caller: any answer, made by the reader or not, and any string.
#![tactic(auto)]

mod parts;
mod sizes;

pub use parts::{body, elements_of, key_of, part_at, signature_of};
pub use sizes::{digest_length, element_size, list_size};

// The types of the elements that are judged.
pub const LAUNCH_TYPE: usize = 0x10;

pub const STM_TYPE: usize = 0x14;

pub const CUSTOM_TYPE: usize = 3;

// The offset of the first digest in the body of a launch element, and of an STM element.
pub const LAUNCH_DIGESTS: usize = 6;

pub const STM_DIGESTS: usize = 4;

// Why a string is refused: its size, or where it is not of the grammar the offset of the first field at fault. `number_of` of specs/Seen.antt gives an
// answer its number: 26 or 27, and 0 for the number of lists of a string that is accepted.
#[derive(Clone, Copy)]
pub enum FileFault {
    WrongSize,
    NotOfGrammar { place: usize },
}

// A part of the file: the offset of its first byte and how many bytes it has.
#[derive(Clone, Copy)]
pub struct Part {
    pub start: usize,
    pub len: usize,
}

// What signs a list: its numbers, and the offsets of the key and the signature.
#[derive(Clone, Copy)]
pub struct SigningAt {
    pub counter: usize,
    pub key_size: usize,
    pub key: usize,
    pub signature: usize,
}

// A list that stands in the file: the offset of its first byte and how many bytes it has, its numbers, the offset of its elements, and what signs it,
// if it is signed.
#[derive(Clone, Copy)]
pub struct ListAt {
    pub start: usize,
    pub size: usize,
    pub version: usize,
    pub elements: usize,
    pub elements_size: usize,
    pub signing: Option<SigningAt>,
}

// The numbers of an element's body, by its type; `kind` is the type of one that is not judged.
#[derive(Clone, Copy)]
pub enum ElementBody {
    Launch {
        sinit_min_version: usize,
        reserved: usize,
        hash_alg: usize,
        count: usize,
    },
    Stm {
        hash_alg: usize,
        count: usize,
    },
    Custom,
    Unjudged {
        kind: usize,
    },
}

// An element that stands in the file: the offset of its first byte, its size, its control and the numbers of its body, which follows the first 12 bytes.
#[derive(Clone, Copy)]
pub struct ElementAt {
    pub start: usize,
    pub size: usize,
    pub control: usize,
    pub body: ElementBody,
}
