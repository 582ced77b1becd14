// Capture files: all that the check is handed over, in one string, and the answer for it.
#![tactic(auto)]

ghost use Rattle.std.specs.Prelude.{◌≡◌, ◌<◌, ◌≤◌, ◌^◌, length};
ghost use Rattle.rules.specs.Rules.{all};
ghost use Rattle.field.specs.Field.{number_at};
ghost use Rattle.launch.specs.Rules.{most_reserved};
ghost use Rattle.capture.specs.Capture as spec;
ghost use Rattle.capture.specs.Capture.{range_count, reserved_of, platform_with, lengths_at, offsets_from, capture_tests, capture_answer, capture_places};
ghost use Rattle.capture.specs.Inner.{Rising};

use answer::Answer;
use field::number_or_zero;
use launch::{MOST_RESERVED, Platform, RESERVED_NUMBERS, ReservedRanges};
use rules::Refusal;

// The versions: the second has the reserved ranges. A version is a number of the file that is only compared, so an enum would stand between two
// comparisons.
const FIRST: u64 = 1;

const SECOND: u64 = 2;

const LARGEST: usize = 65536;

// What a program lends for the input: a byte more than a capture may have, so that a longer input is told from one.
pub const INPUT: usize = LARGEST + 1;

// Where the chipset revision ends: the lengths of version 1 follow, or the count of version 2.
const REVISION_END: usize = 59;

// The reserved ranges, of 16 bytes each.
const RANGES: usize = REVISION_END + 2;

fn version(s: &[u8]) -> u64
    ensures { result ≡ spec.version s.now }
{
    number_or_zero(s, 3, 2)
}

fn is_known(version: u64) -> bool
    ensures { result ≡ spec.known_version version }
{
    version == FIRST || version == SECOND
}

fn number16(s: &[u8], at: usize) -> u16
    ensures { result ≡ number_at s.now at 2 }
{
    number_or_zero(s, at, 2) as u16
}

fn length(s: &[u8], at: usize) -> usize
    ensures { (result ≡ number_at s.now at 4) × (result < 2 ^ 32) }
{
    number_or_zero(s, at, 4) as usize
}

// How many ranges are reserved.
fn range_count(s: &[u8]) -> u32
    ensures { (result ≡ range_count s.now) × (result < 2 ^ 16) }
{
    if version(s) == SECOND {
        number_or_zero(s, REVISION_END, 2) as u32
    } else {
        0
    }
}

// Base and size of each reserved range.
fn reserved(s: &[u8]) -> ReservedRanges
    requires { range_count s.now ≤ most_reserved }
    ensures { result ≡ reserved_of s.now }
{
    let count = range_count(s);
    let mut numbers = [0u64; RESERVED_NUMBERS];
    for k in 0..2 * count as usize {
        numbers[k] = number_or_zero(s, RANGES + 8 * k, 8);
    }
    ReservedRanges { count, numbers }
}

fn platform(s: &[u8]) -> Platform
    requires { range_count s.now ≤ most_reserved }
    ensures { result ≡ platform_with s.now (reserved_of s.now) }
{
    Platform {
        window_base: number_or_zero(s, 5, 8),
        heap_base: number_or_zero(s, 13, 8),
        sinit_base: number_or_zero(s, 21, 8),
        dpr_base: number_or_zero(s, 29, 8),
        dpr_size: number_or_zero(s, 37, 8),
        acram_capacity: number_or_zero(s, 45, 8),
        vendor: number16(s, 53),
        device: number16(s, 55),
        revision: number16(s, 57),
        reserved: reserved(s),
    }
}

// The offset of the four lengths.
fn lengths_at(s: &[u8]) -> usize
    ensures { (result ≡ lengths_at s.now) × (result < 2 ^ 21) }
{
    if version(s) == SECOND {
        RANGES + 16 * range_count(s) as usize
    } else {
        REVISION_END
    }
}

// Where the parts begin, and where the last ends: offsets, as specs/Capture.antt says them (`offsets_from`).
#[derive(Clone, Copy)]
pub struct Offsets {
    pub window: usize,
    pub heap: usize,
    pub sinit: usize,
    pub policy_record: usize,
    pub end: usize,
}

fn offsets_in(s: &[u8]) -> Offsets
    ensures { (result ≡ offsets_from s.now (lengths_at s.now)) × Rising result }
{
    let at = lengths_at(s);
    let window = at + 16;
    let heap = window + length(s, at);
    let sinit = heap + length(s, at + 4);
    let policy_record = sinit + length(s, at + 8);
    let end = policy_record + length(s, at + 12);
    Offsets {
        window,
        heap,
        sinit,
        policy_record,
        end,
    }
}

// Whether a string is a capture.
fn holds(s: &[u8]) -> bool
    ensures { result ≡ all (capture_tests s.now) }
{
    if !is_known(version(s)) {
        return false;
    }
    if MOST_RESERVED < range_count(s) {
        return false;
    }
    if LARGEST < s.len() {
        return false;
    }
    if !field::marked(s, 0, b"LPC") {
        return false;
    }
    let at = offsets_in(s);
    if s.len() < at.window {
        return false;
    }
    at.end == s.len()
}

// The answer for a capture, and on permission the addresses of the pages in the first places of the page list.
pub fn check(s: &[u8], pages: &mut [u64]) -> Answer
    ensures answer { result ≡ capture_answer s.now (length pages.old) }
    ensures places { pages.new ≡ capture_places s.now pages.old }
{
    if !holds(s) {
        return Answer::from(Refusal::Capture);
    }
    let at = offsets_in(s);
    let window = at.window;
    let heap = at.heap;
    let sinit = at.sinit;
    let policy_record = at.policy_record;
    let end = at.end;
    launch::check(
        &s[window..heap],
        &s[heap..sinit],
        &s[sinit..policy_record],
        &s[policy_record..end],
        &s[..0],
        platform(s),
        pages,
    )
}
