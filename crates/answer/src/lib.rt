// The answer of the check, which every crate that gives one or shows one has in common.
#![tactic(auto)]

ghost use Rattle.std.specs.Prelude.{◌≡◌};
ghost use Rattle.answer.specs.Answer as spec;

// The number, how many pages were written, the list that permits, the offset of the first field at fault in the policy file on 27, else 0, and the
// digest of the pages. The number, and 255 where no list permits, are of the C interface and of demand 1; `Refusal` of `rules` and `Option` stand for them within.
#[derive(Clone, Copy)]
pub struct Answer {
    pub number: u32,
    pub pages: u32,
    pub list: u32,
    pub place: u32,
    pub digest: [u8; 32],
}

// The list number where no list permits, or none is asked.
pub const NO_LIST: u32 = 255;

// The answer of a refusal, with its place: no pages, no list, a digest of zeros.
pub fn refused(number: u32, place: u32) -> Answer
    ensures { result ≡ spec.refused number place }
{
    Answer {
        number,
        pages: 0,
        list: NO_LIST,
        place,
        digest: [0u8; 32],
    }
}
