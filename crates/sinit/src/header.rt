// The module's place and header, its GDT and its entry point: rules 6, 7 and 8.
ghost use Rattle.std.specs.Prelude.{◌≡◌, ◌<◌, ◌^◌};
ghost use Rattle.sinit.specs.Module.{header_len, gdt_limit, E, first, editions, row_of, edition_of};
ghost use Rattle.sinit.specs.Module as spec;
ghost use Rattle.rules.specs.Rules.{all};
ghost use Rattle.sinit.specs.Rules.{place, header, gdt, entry, selector};

use field::number_or_zero;
use range::{PAGE_SIZE, Range};

const LENGTH_UNIT: u64 = 64;

const HIGHEST_MODULE_END: u64 = 0xFFFF_FFFF;

const CHIPSET_MODULE: u64 = 2;

const INTEL: u64 = 0x8086;

const GDT_LIMIT_END: u64 = 65536;

const DESCRIPTOR_SIZE: u64 = 8;

const SECOND_END: u64 = 15;

// An edition of the header: its version, its HeaderLen and KeySize in words of 4 bytes, and the least length of a module.
#[derive(Clone, Copy)]
pub struct Edition {
    pub version: u64,
    pub header_len: u64,
    pub key_size: u64,
    pub least_length: u64,
}

// Header versions 0.0 and 3.0.
const EDITIONS: [Edition; 2] = [
    Edition {
        version: 0,
        header_len: 161,
        key_size: 64,
        least_length: 704,
    },
    Edition {
        version: 0x0003_0000,
        header_len: 224,
        key_size: 96,
        least_length: 960,
    },
];

fn header_len(acm: &[u8]) -> u64
    ensures { (result ≡ header_len acm.now) × (result < 2 ^ 32) }
{
    number_or_zero(acm, 4, 4)
}

fn version(acm: &[u8]) -> u64
    ensures { result ≡ spec.version acm.now }
{
    number_or_zero(acm, 8, 4)
}

fn gdt_limit(acm: &[u8]) -> u64
    ensures { result ≡ gdt_limit acm.now }
{
    number_or_zero(acm, 40, 4)
}

// The row of a version, or the first where no row has it, as `row_of` says; an Option would be undone at its one caller.
fn row_of(version: u64) -> Edition
    ensures { result ≡ row_of version first editions }
{
    for row in EDITIONS {
        if row.version == version {
            return row;
        }
    }
    EDITIONS[0]
}

// The edition of a module's header.
fn edition_of(acm: &[u8]) -> Edition
    ensures { result ≡ edition_of acm.now }
{
    row_of(version(acm))
}

// Rule 6: base and length.
#[tactic(auto, unfolding(crate::specs::Rules::place, rules::specs::Rules::all))]
pub(crate) fn place_holds(acm: &[u8], base: u64, capacity: u64) -> bool
    ensures { result ≡ all (place acm.now base capacity) }
{
    let length = acm.len() as u64;
    let edition = edition_of(acm);
    if base % PAGE_SIZE != 0 {
        return false;
    }
    if length % LENGTH_UNIT != 0 {
        return false;
    }
    if length < edition.least_length {
        return false;
    }
    if capacity < length {
        return false;
    }
    range::ends_by(Range { base, size: length }, HIGHEST_MODULE_END)
}

// Rule 7: the numbers of the header.
#[tactic(auto, unfolding(crate::specs::Rules::header, rules::specs::Rules::all))]
pub(crate) fn header_holds(acm: &[u8]) -> bool
    ensures { result ≡ all (header acm.now) }
{
    if number_or_zero(acm, 0, 2) != CHIPSET_MODULE {
        return false;
    }
    if number_or_zero(acm, 16, 4) != INTEL {
        return false;
    }
    if 4 * number_or_zero(acm, 24, 4) != acm.len() as u64 {
        return false;
    }
    let edition = edition_of(acm);
    if header_len(acm) != edition.header_len {
        return false;
    }
    if version(acm) != edition.version {
        return false;
    }
    number_or_zero(acm, 120, 4) == edition.key_size
}

// E: the end of the header and the scratch area.
#[tactic(auto, unfolding(crate::specs::Module::E))]
pub(crate) fn header_end(acm: &[u8]) -> u64
    ensures { (result ≡ E acm.now) × (result < 2 ^ 36) }
{
    4 * header_len(acm) + 4 * number_or_zero(acm, 124, 4)
}

// Rule 8: the place of the GDT.
#[tactic(auto, unfolding(crate::specs::Rules::gdt, rules::specs::Rules::all))]
pub(crate) fn gdt_holds(acm: &[u8]) -> bool
    ensures { result ≡ all (gdt acm.now) }
{
    let length = acm.len() as u64;
    let limit = gdt_limit(acm);
    let base = number_or_zero(acm, 44, 4);
    if base < header_end(acm) {
        return false;
    }
    if length <= base {
        return false;
    }
    if length - base <= limit {
        return false;
    }
    limit < GDT_LIMIT_END
}

// Rule 8: the entry point.
#[tactic(auto, unfolding(crate::specs::Rules::entry, rules::specs::Rules::all))]
pub(crate) fn entry_holds(acm: &[u8]) -> bool
    ensures { result ≡ all (entry acm.now) }
{
    let point = number_or_zero(acm, 52, 4);
    if point < header_end(acm) {
        return false;
    }
    point < acm.len() as u64
}

// Rule 8: the selector names two segments of the GDT.
#[tactic(auto, unfolding(crate::specs::Rules::selector, rules::specs::Rules::all))]
pub(crate) fn selector_holds(acm: &[u8]) -> bool
    ensures { result ≡ all (selector acm.now) }
{
    let limit = gdt_limit(acm);
    let sel = number_or_zero(acm, 48, 4);
    if sel < DESCRIPTOR_SIZE {
        return false;
    }
    if sel % DESCRIPTOR_SIZE != 0 {
        return false;
    }
    if limit < SECOND_END {
        return false;
    }
    sel <= limit - SECOND_END
}
