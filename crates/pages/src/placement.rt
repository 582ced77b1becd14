// What a page of memory is tried for: clear of the forbidden ranges, held by a region; and whether one region holds a range of pages.
ghost use Rattle.std.specs.Prelude.{ℕ, ◌≡◌, List};
ghost use Rattle.range.specs.Range.{inside_of};
ghost use Rattle.rules.specs.Tests.{any};
ghost use Rattle.pages.specs.Memory.{memory_of, regions, allowed, protected};

use crate::MemoryRanges;
use range::{ClearOf, PAGE_SIZE, Range};

// The forbidden range below 1 MiB, 0xA0000 to 0xFFFFF.
const LOW_BASE: u64 = 0xA0000;

const LOW_SIZE: u64 = 0x60000;

// Rule 17: clear of the forbidden range below 1 MiB, of the heap, of the module and of the reserved ranges.
#[tactic(auto, unfolding(crate::specs::Memory::allowed))]
pub(crate) fn is_allowed(m: MemoryRanges, reserved: &[u64], a: u64) -> bool
    ensures { result ≡ allowed (memory_of m reserved.now) a }
{
    let page = Range {
        base: a,
        size: PAGE_SIZE,
    };
    let low = Range {
        base: LOW_BASE,
        size: LOW_SIZE,
    };
    range::clear(page, low)
        && (range::clear(page, m.heap)
            && (range::clear(page, m.sinit) && range::all_meet(&ClearOf { other: page }, reserved)))
}

// Rule 20, of a range: wholly in DPR, in the low PMR or in the high PMR.
pub(crate) fn is_protected(m: MemoryRanges, pages: Range) -> bool
    ensures { (reserved : List ℕ) → result ≡ any (inside_of pages) (regions (memory_of m reserved)) }
{
    range::inside(pages, m.dpr) || (range::inside(pages, m.low) || range::inside(pages, m.high))
}

// Rule 20, of the table at a: any one of the regions will do, whichever holds the pages.
#[tactic(auto, unfolding(crate::specs::Memory::protected))]
pub(crate) fn is_table_protected(m: MemoryRanges, a: u64) -> bool
    ensures { (reserved : List ℕ) → result ≡ protected (regions (memory_of m reserved)) a }
{
    let table = Range {
        base: a,
        size: PAGE_SIZE,
    };
    is_protected(m, table)
}
