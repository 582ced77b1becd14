// What the launch finds, rules 1 to 22: the platform, the heap, the SINIT module, the pages and the MLE header.
ghost use Rattle.std.specs.Prelude.{◌≡◌, ◌≤◌};
ghost use Rattle.rules.specs.Rules.{all};
ghost use Rattle.rules.specs.Refusal.{numbered};
ghost use Rattle.range.specs.Range.{ends_by, highest_end};
ghost use Rattle.pages.specs.Memory.{memory_of};
ghost use Rattle.pages.specs.Rules.{walk_of};
ghost use Rattle.launch.specs.Rules.{most_reserved, reserved_numbers, reserved_tests, platform_tests, memory_from, chipset_of, found_of};
ghost use Rattle.launch.specs.Inner.{input, image_stage, page_stage, find_stage};

use crate::{Found, Lent, MOST_RESERVED, Platform, ReservedRanges};
use heap::OsSinitData;
use mle::Image;
use pages::{Mapped, MemoryRanges};
use range::{EndsBy, HIGHEST_END, PAGE_SIZE, Range};
use rules::{Refusal, require};
use sinit::{Chipset, ModuleData};

// The most bytes of a window, of a heap and of an STM image.
const MOST_WINDOW: usize = 0x800_0000;

const MOST_HEAP: usize = 0x10_0000;

const MOST_STM: usize = 0x100_0000;

fn ends(base: u64, size: u64) -> bool
    ensures { result ≡ ends_by (record { base = base; size = size }) highest_end }
{
    range::ends_by(Range { base, size }, HIGHEST_END)
}

// Rule 1, of the reserved ranges.
fn reserved_holds(reserved: ReservedRanges) -> bool
    ensures { result ≡ all (reserved_tests reserved) }
{
    if MOST_RESERVED < reserved.count {
        return false;
    }
    let numbers = reserved.numbers;
    let length = 2 * reserved.count as usize;
    range::all_meet(&EndsBy { limit: HIGHEST_END }, &numbers[..length])
}

// Rule 1.
fn platform_holds(lent: &Lent) -> bool
    ensures { result ≡ all (platform_tests lent.now.window.now lent.now.heap.now lent.now.stm.now lent.now.platform) }
{
    let Lent {
        window,
        heap,
        stm,
        platform: p,
        ..
    } = *lent;
    if p.window_base % PAGE_SIZE != 0 {
        return false;
    }
    if MOST_WINDOW < window.len() {
        return false;
    }
    if MOST_HEAP < heap.len() {
        return false;
    }
    if MOST_STM < stm.len() {
        return false;
    }
    if !ends(p.window_base, window.len() as u64) {
        return false;
    }
    if !ends(p.heap_base, heap.len() as u64) {
        return false;
    }
    if !ends(p.dpr_base, p.dpr_size) {
        return false;
    }
    reserved_holds(p.reserved)
}

fn chipset(p: Platform) -> Chipset
    ensures { result ≡ chipset_of p }
{
    Chipset {
        vendor: p.vendor,
        device: p.device,
        revision: p.revision,
    }
}

// What the policy is asked about.
fn found(image: Image, o: OsSinitData, m: ModuleData) -> Found
    ensures { result ≡ found_of image o m }
{
    Found {
        image: image,
        window_base: image.window,
        policy_file: Range {
            base: o.policy_file_base,
            size: o.policy_file_size,
        },
        flags: m.flags,
        acm_version: m.acm_version,
    }
}

// What the walk is told of the memory, by the lengths of heap and module.
fn memory(heap: usize, sinit: usize, p: Platform, o: OsSinitData) -> MemoryRanges
    ensures { result ≡ memory_from heap sinit p o }
{
    MemoryRanges {
        window: p.window_base,
        heap: Range {
            base: p.heap_base,
            size: heap as u64,
        },
        sinit: Range {
            base: p.sinit_base,
            size: sinit as u64,
        },
        dpr: Range {
            base: p.dpr_base,
            size: p.dpr_size,
        },
        low: Range {
            base: o.pmr_low_base,
            size: o.pmr_low_size,
        },
        high: Range {
            base: o.pmr_high_base,
            size: o.pmr_high_size,
        },
    }
}

// Rules 21 and 22, of the pages that the walk found.
fn find_image(window: &[u8], o: OsSinitData, m: ModuleData, image: Image) -> Result<Found, Refusal>
    ensures { numbered result ≡ image_stage window.now o m image }
{
    require(
        image.count as u64 == o.mle_size / PAGE_SIZE,
        Refusal::PageCount,
    )?;
    require(
        mle::header_holds(
            window,
            image,
            o.mle_header_base,
            o.mle_size,
            m.min_mle_header_ver,
        ),
        Refusal::MleHeader,
    )?;
    Ok(found(image, o, m))
}

// Rules 14 to 20, with the reserved ranges within the count.
fn walk(
    window: &[u8],
    memory: MemoryRanges,
    reserved: ReservedRanges,
    tables: u64,
) -> Result<Mapped, Refusal>
    requires { reserved.count ≤ most_reserved }
    ensures { numbered result ≡ walk_of window.now (memory_of memory (reserved_numbers reserved)) tables }
{
    let numbers = reserved.numbers;
    let within = 2 * reserved.count as usize;
    pages::walk(window, memory, &numbers[..within], tables)
}

// Rules 12 to 22, for a page list of so many places.
fn find_pages(
    window: &[u8],
    o: OsSinitData,
    m: ModuleData,
    memory: MemoryRanges,
    reserved: ReservedRanges,
    places: usize,
) -> Result<Found, Refusal>
    requires { reserved.count ≤ most_reserved }
    ensures { numbered result ≡ page_stage window.now o m (memory_of memory (reserved_numbers reserved)) places }
{
    require(mle::size_holds(o.mle_size), Refusal::MleSize)?;
    require(o.mle_size / PAGE_SIZE <= places as u64, Refusal::PageList)?;
    let mapped = walk(window, memory, reserved, o.page_table_base)?;
    let image = Image {
        window: memory.window,
        tables: o.page_table_base,
        first: mapped.first,
        count: mapped.count,
    };
    find_image(window, o, m, image)
}

// Rules 1 to 22, for a page list of so many places.
pub(crate) fn find(lent: &Lent, places: usize) -> Result<Found, Refusal>
    ensures { numbered result ≡ find_stage (input lent.now places) }
{
    require(platform_holds(lent), Refusal::Limits)?;
    let p = lent.platform;
    let o = heap::read(lent.heap)?;
    let m = sinit::read(
        lent.sinit,
        p.sinit_base,
        p.acram_capacity,
        chipset(p),
        o.version,
    )?;
    let memory = memory(lent.heap.len(), lent.sinit.len(), p, o);
    find_pages(lent.window, o, m, memory, p.reserved, places)
}
