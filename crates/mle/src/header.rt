// MLE Size, rule 12, and the MLE header, rule 22: where the header stands, and what its fields say.
ghost use Rattle.std.specs.Prelude.{◌≡◌};
ghost use Rattle.rules.specs.Rules.{all};
ghost use Rattle.mle.specs.Header.{size_tests, mapped, place_tests, field_tests, header_tests};

use crate::Image;
use crate::linear::{address, page_bytes};
use field::{marked, number_or_zero};
use range::PAGE_SIZE;

const MOST_PAGES: u64 = 16384;

const HEADER_SIZE: u64 = 52;

const LAST_OFFSET: u64 = 4044;

const UUID: [u8; 16] = [
    0x5A, 0xAC, 0x82, 0x90, 0x6F, 0x47, 0xA7, 0x74, 0x0F, 0x5C, 0x55, 0xA2, 0xCB, 0x51, 0xB6, 0x42,
];

// Rule 12.
#[tactic(auto, unfolding(crate::specs::Header::size_tests, rules::specs::Rules::all))]
pub fn size_holds(size: u64) -> bool
    ensures { result ≡ all (size_tests size) }
{
    if size == 0 {
        return false;
    }
    if size % PAGE_SIZE != 0 {
        return false;
    }
    size / PAGE_SIZE <= MOST_PAGES
}

// Whether a linear address is in the mapped range.
fn is_mapped(image: Image, a: u64) -> bool
    ensures { result ≡ mapped image a }
{
    let first = image.first as u64;
    let end = first + image.count as u64;
    if a < first * PAGE_SIZE {
        return false;
    }
    a < end * PAGE_SIZE
}

// Rule 22: where the header stands.
#[tactic(auto, unfolding(crate::specs::Header::place_tests, rules::specs::Rules::all))]
fn place_holds(image: Image, base: u64) -> bool
    ensures { result ≡ all (place_tests image base) }
{
    if !is_mapped(image, base) {
        return false;
    }
    base % PAGE_SIZE <= LAST_OFFSET
}

// Rule 22: what the bytes h of the header say.
#[tactic(auto, unfolding(crate::specs::Header::field_tests, rules::specs::Rules::all))]
fn fields_hold(h: &[u8], image: Image, size: u64, least: u64) -> bool
    ensures { result ≡ all (field_tests h.now image size least) }
{
    let uuid = UUID;
    if !marked(h, 0, &uuid) {
        return false;
    }
    if number_or_zero(h, 16, 4) < HEADER_SIZE {
        return false;
    }
    if number_or_zero(h, 20, 4) < least {
        return false;
    }
    if !is_mapped(image, number_or_zero(h, 24, 4)) {
        return false;
    }
    if number_or_zero(h, 28, 4) != image.first as u64 * PAGE_SIZE {
        return false;
    }
    let start = number_or_zero(h, 32, 4);
    let end = number_or_zero(h, 36, 4);
    if end < start {
        return false;
    }
    end - start == size
}

// Rule 22, for the header at a linear address.
pub fn header_holds(w: &[u8], image: Image, base: u64, size: u64, least: u64) -> bool
    ensures { result ≡ all (header_tests w.now image base size least) }
{
    if !place_holds(image, base) {
        return false;
    }
    let page = page_bytes(w, image, address(w, image, base / PAGE_SIZE));
    let at = (base % PAGE_SIZE) as usize;
    let end = at + HEADER_SIZE as usize;
    if page.len() < end {
        return false;
    }
    fields_hold(&page[at..end], image, size, least)
}
