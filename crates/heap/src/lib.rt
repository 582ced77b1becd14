// The TXT heap: its three parts, the fields of OsSinitData, its elements and its protected memory regions (PMR). Rules 2 to 5.
#![tactic(auto)]

ghost use Rattle.std.specs.Prelude.{◌≡◌};
ghost use Rattle.rules.specs.Refusal.{numbered};
ghost use Rattle.heap.specs.Inner.{part_end};
ghost use Rattle.heap.specs.Heap.{size_fits, fields_of, version_known, elements_end, low_placed, high_placed, pmrs_placed, part_answer, heap_of};

use range::Range;
use rules::{Refusal, require};

// The fields of OsSinitData, in its order.
#[derive(Clone, Copy)]
pub struct OsSinitData {
    pub version: u64,
    pub flags: u64,
    pub page_table_base: u64,
    pub mle_size: u64,
    pub mle_header_base: u64,
    pub pmr_low_base: u64,
    pub pmr_low_size: u64,
    pub pmr_high_base: u64,
    pub pmr_high_size: u64,
    pub policy_file_base: u64,
    pub policy_file_size: u64,
    pub capabilities: u64,
    pub rsdp: u64,
}

// The least size of a part and of an element, which counts the bytes of the size.
const LEAST_SIZE: u64 = 8;

// The width of a part's size.
const SIZE_WIDTH: usize = 8;

// The least size of OsSinitData.
const LEAST_PART: usize = 108;

// The offset of the first element in OsSinitData after its size.
const ELEMENTS: usize = 92;

// The width of an element's type and size together.
const ELEMENT_HEAD: usize = 8;

// The type and the size of the end element.
const END_TYPE: u64 = 0;

const END_SIZE: u64 = 8;

// Where the low PMR ends at the latest, and the high PMR begins at the earliest.
const LOW_LIMIT: u64 = 0x1_0000_0000;

// Whether a size is at least 8, and as many bytes from `at` on end at or before `end`.
#[tactic(auto, unfolding(crate::specs::Heap::size_fits))]
fn size_fits(at: usize, size: u64, end: usize) -> bool
    ensures { result ≡ size_fits at size end }
{
    if end < at {
        return false;
    }
    LEAST_SIZE <= size && size <= (end - at) as u64
}

// The fields of OsSinitData, of its bytes after its size.
#[tactic(auto, unfolding(crate::specs::Heap::fields_of))]
fn fields(s: &[u8]) -> OsSinitData
    ensures { result ≡ fields_of s.now }
{
    OsSinitData {
        version: field::number_or_zero(s, 0, 4),
        flags: field::number_or_zero(s, 4, 4),
        page_table_base: field::number_or_zero(s, 8, 8),
        mle_size: field::number_or_zero(s, 16, 8),
        mle_header_base: field::number_or_zero(s, 24, 8),
        pmr_low_base: field::number_or_zero(s, 32, 8),
        pmr_low_size: field::number_or_zero(s, 40, 8),
        pmr_high_base: field::number_or_zero(s, 48, 8),
        pmr_high_size: field::number_or_zero(s, 56, 8),
        policy_file_base: field::number_or_zero(s, 64, 8),
        policy_file_size: field::number_or_zero(s, 72, 8),
        capabilities: field::number_or_zero(s, 80, 4),
        rsdp: field::number_or_zero(s, 84, 8),
    }
}

#[tactic(auto, unfolding(crate::specs::Heap::version_known))]
fn known(version: u64) -> bool
    ensures { result ≡ version_known version }
{
    version == 6 || version == 7
}

// Whether the elements, from the first to the end of the part, reach an end element, each of them inside.
fn elements_end(s: &[u8]) -> bool
    ensures { result ≡ elements_end s.now }
{
    // The next element begins where this one's own size says: no iterator of the library steps so.
    let mut at: usize = 0;
    while ELEMENT_HEAD <= s.len() - at {
        let size = field::number_or_zero(s, at + 4, 4);
        if !size_fits(at, size, s.len()) {
            return false;
        }
        if field::number_or_zero(s, at, 4) == END_TYPE {
            return size == END_SIZE;
        }
        at += size as usize;
    }
    false
}

#[tactic(auto, unfolding(crate::specs::Heap::low_placed))]
fn low_placed(pmr: Range) -> bool
    ensures { result ≡ low_placed pmr }
{
    pmr.size == 0 || range::ends_by(pmr, LOW_LIMIT)
}

#[tactic(auto, unfolding(crate::specs::Heap::high_placed))]
fn high_placed(pmr: Range) -> bool
    ensures { result ≡ high_placed pmr }
{
    pmr.size == 0 || LOW_LIMIT <= pmr.base && range::ends_by(pmr, range::HIGHEST_END)
}

// Whether each PMR is unused or in its place.
#[tactic(auto, unfolding(crate::specs::Heap::pmrs_placed))]
fn placed(o: OsSinitData) -> bool
    ensures { result ≡ pmrs_placed o }
{
    let low = Range {
        base: o.pmr_low_base,
        size: o.pmr_low_size,
    };
    let high = Range {
        base: o.pmr_high_base,
        size: o.pmr_high_size,
    };
    low_placed(low) && high_placed(high)
}

// Rules 3 to 5, of the bytes of OsSinitData.
#[tactic(auto, unfolding(crate::specs::Heap::part_answer, rules::specs::Rules::answer_for))]
fn judge(part: &[u8]) -> Result<OsSinitData, Refusal>
    ensures { numbered result ≡ part_answer part.now }
{
    require(LEAST_PART <= part.len(), Refusal::OsSinitData)?;
    let s = &part[SIZE_WIDTH..];
    let o = fields(s);
    require(known(o.version), Refusal::OsSinitData)?;
    require(elements_end(&s[ELEMENTS..]), Refusal::HeapElements)?;
    require(placed(o), Refusal::Pmr)?;
    Ok(o)
}

// Where the part that begins at `at` ends, which is inside the heap.
fn part_end(heap: &[u8], at: usize) -> Result<usize, Refusal>
    ensures { result ≡ part_end heap.now at }
{
    let size = field::number_or_zero(heap, at, SIZE_WIDTH);
    require(size_fits(at, size, heap.len()), Refusal::HeapParts)?;
    Ok(at + size as usize)
}

// The fields of OsSinitData, or the first of rules 2 to 5 that fails.
pub fn read(heap: &[u8]) -> Result<OsSinitData, Refusal>
    ensures { numbered result ≡ heap_of heap.now }
{
    let os_mle = part_end(heap, 0)?;
    let os_sinit = part_end(heap, os_mle)?;
    let end = part_end(heap, os_sinit)?;
    judge(&heap[os_sinit..end])
}
