// Ranges of physical memory.
#![tactic(auto)]

mod pairs;

ghost use Rattle.std.specs.Prelude.{◌≡◌};
ghost use Rattle.range.specs.Range.{inside_of, clear_of, ends_by};

pub use pairs::{ClearOf, Condition, EndsBy, all_meet};

// The bytes of a page of memory.
pub const PAGE_SIZE: u64 = 4096;

// Where memory ends at the latest.
pub const HIGHEST_END: u64 = 0x10_0000_0000_0000;

// `size` bytes from `base` on.
#[derive(Clone, Copy)]
pub struct Range {
    pub base: u64,
    pub size: u64,
}

// Whether a lies inside b.
#[tactic(auto, unfolding(crate::specs::Range::inside_of))]
pub fn inside(a: Range, b: Range) -> bool
    ensures { result ≡ inside_of a b }
{
    if a.base < b.base {
        return false;
    }
    if b.size < a.size {
        return false;
    }
    a.base - b.base <= b.size - a.size
}

// Whether a and b have no byte in common.
#[tactic(auto, unfolding(crate::specs::Range::clear_of))]
pub fn clear(a: Range, b: Range) -> bool
    ensures { result ≡ clear_of a b }
{
    if a.size == 0 {
        return true;
    }
    if b.size == 0 {
        return true;
    }
    if a.base < b.base {
        a.size <= b.base - a.base
    } else {
        b.size <= a.base - b.base
    }
}

// Whether a ends at or below a limit.
#[tactic(auto, unfolding(crate::specs::Range::ends_by))]
pub fn ends_by(a: Range, limit: u64) -> bool
    ensures { result ≡ ends_by a limit }
{
    if limit < a.size {
        return false;
    }
    a.base <= limit - a.size
}
