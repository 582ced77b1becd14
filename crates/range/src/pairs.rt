// Ranges that are lent as numbers, the base and the size of each in turn.
ghost use Rattle.std.specs.Prelude.{◌≡◌, Bool};
ghost use Rattle.rules.specs.Tests.{every};
ghost use Rattle.range.specs.declared.Range.{Range};
ghost use Rattle.range.specs.Range.{clear_of, ends_by};
ghost use Rattle.range.specs.Pairs.{ranges_of};

use crate::{Range, clear, ends_by};

// What can be asked of a range.
pub trait Condition {
    ghost met_by: { Self → Range → Bool };

    fn is_met(&self, r: Range) -> bool
        ensures { result ≡ met_by self.now r };
}

// A range has no byte in common with another.
#[derive(Clone, Copy)]
pub struct ClearOf {
    pub other: Range,
}

impl Condition for ClearOf {
    ghost met_by = { λ c. clear_of c.other };

    fn is_met(&self, r: Range) -> bool {
        clear(self.other, r)
    }
}

// A range ends at or below a limit.
#[derive(Clone, Copy)]
pub struct EndsBy {
    pub limit: u64,
}

impl Condition for EndsBy {
    ghost met_by = { λ c r. ends_by r c.limit };

    fn is_met(&self, r: Range) -> bool {
        ends_by(r, self.limit)
    }
}

// Whether all ranges meet a condition.
pub fn all_meet<C: Condition>(c: &C, pairs: &[u64]) -> bool
    ensures { result ≡ every (C.met_by c.now) (ranges_of pairs.now) }
{
    pairs.chunks_exact(2).all(|pair| {
        c.is_met(Range {
            base: pair[0],
            size: pair[1],
        })
    })
}
