// The check, the reader and the writer of policy files, SHA-256 and the verification of RSA signatures for programs in C or Rust: include/bleiwurzel.h. A slice is passed
// as its address and its length, and what is answered besides a number is written to arrays that the caller lends.
#![tactic(auto)]

mod policy_file;
mod policy_write;

ghost use Rattle.std.specs.Prelude.{◌≡◌, [], ◌∷◌, length};
ghost use Rattle.sha256.specs.Message.{sha256};
ghost use Rattle.rsa.specs.Rsa.{verifies};
ghost use Rattle.launch.specs.Rules.{input_of};
ghost use Rattle.capture.specs.Capture.{capture_answer, capture_places};
ghost use Rattle.bleiwurzel.specs.Scalars.{platform_of, counts_of, Given, GivenFor, MeasuredFor};

use answer::Answer;
use launch::{Platform, RESERVED_NUMBERS, ReservedRanges};

// An answer to C: the number as the result, the rest in the arrays that the header declares one by one.
fn give(a: Answer, counts: &mut [u32; 2], place: &mut [u32; 1], digest: &mut [u8; 32]) -> u32
    ensures number { result ≡ a.number }
    ensures counts { counts.new ≡ counts_of a }
    ensures place { place.new ≡ a.place ∷ [] }
    ensures digest { digest.new ≡ a.digest }
{
    *counts = [a.pages, a.list];
    *place = [a.place];
    let sum = a.digest;
    *digest = sum;
    a.number
}

// Whether the next launch will succeed: the number. On permission the first places of `pages` hold the addresses of the pages. `counts` gets the
// number of pages and the list, `place` on 27 the offset of the first field at fault in the policy file, else 0, `digest` the digest of the pages.
#[unsafe(no_mangle)]
pub extern "C" fn bleiwurzel_check(
    window: &[u8],
    heap: &[u8],
    sinit: &[u8],
    record: &[u8],
    stm: &[u8],
    window_base: u64,
    heap_base: u64,
    sinit_base: u64,
    dpr_base: u64,
    dpr_size: u64,
    acram_capacity: u64,
    vendor: u16,
    device: u16,
    revision: u16,
    reserved_count: u32,
    reserved: &[u64; RESERVED_NUMBERS],
    pages: &mut [u64],
    counts: &mut [u32; 2],
    place: &mut [u32; 1],
    digest: &mut [u8; 32],
) -> u32
    ensures { GivenFor
        (input_of window.now heap.now sinit.now «record».now stm.now
        (platform_of window_base heap_base sinit_base dpr_base dpr_size acram_capacity vendor device revision reserved_count reserved.now)
        (length pages.old))
        pages.old result pages.new counts.new place.new digest.new }
{
    let mut measurement = [0u8; 32];
    bleiwurzel_check_measured(
        window,
        heap,
        sinit,
        record,
        stm,
        window_base,
        heap_base,
        sinit_base,
        dpr_base,
        dpr_size,
        acram_capacity,
        vendor,
        device,
        revision,
        reserved_count,
        reserved,
        pages,
        counts,
        place,
        digest,
        &mut measurement,
    )
}

// The same, and `measurement` gets the digest of the pages, on 29 too, and zeros on every other refusal.
#[unsafe(no_mangle)]
pub extern "C" fn bleiwurzel_check_measured(
    window: &[u8],
    heap: &[u8],
    sinit: &[u8],
    record: &[u8],
    stm: &[u8],
    window_base: u64,
    heap_base: u64,
    sinit_base: u64,
    dpr_base: u64,
    dpr_size: u64,
    acram_capacity: u64,
    vendor: u16,
    device: u16,
    revision: u16,
    reserved_count: u32,
    reserved: &[u64; RESERVED_NUMBERS],
    pages: &mut [u64],
    counts: &mut [u32; 2],
    place: &mut [u32; 1],
    digest: &mut [u8; 32],
    measurement: &mut [u8; 32],
) -> u32
    ensures { MeasuredFor
        (input_of window.now heap.now sinit.now «record».now stm.now
        (platform_of window_base heap_base sinit_base dpr_base dpr_size acram_capacity vendor device revision reserved_count reserved.now)
        (length pages.old))
        pages.old result pages.new counts.new place.new digest.new measurement.new }
{
    let numbers = *reserved;
    let platform = Platform {
        window_base: window_base,
        heap_base: heap_base,
        sinit_base: sinit_base,
        dpr_base: dpr_base,
        dpr_size: dpr_size,
        acram_capacity: acram_capacity,
        vendor: vendor,
        device: device,
        revision: revision,
        reserved: ReservedRanges {
            count: reserved_count,
            numbers,
        },
    };
    let a = launch::check_measured(
        window,
        heap,
        sinit,
        record,
        stm,
        platform,
        pages,
        measurement,
    );
    give(a, counts, place, digest)
}

// The check for a capture, with 30 for what is no capture.
#[unsafe(no_mangle)]
pub extern "C" fn bleiwurzel_check_capture(
    capture: &[u8],
    pages: &mut [u64],
    counts: &mut [u32; 2],
    place: &mut [u32; 1],
    digest: &mut [u8; 32],
) -> u32
    ensures { Given
        (capture_answer capture.now (length pages.old))
        (capture_places capture.now pages.old)
        result pages.new counts.new place.new digest.new }
{
    let r = capture::check(capture, pages);
    give(r, counts, place, digest)
}

// SHA-256 of a message.
#[unsafe(no_mangle)]
pub extern "C" fn bleiwurzel_sha256(message: &[u8], digest: &mut [u8; 32])
    ensures { digest.new ≡ sha256 message.now }
{
    *digest = sha256::digest(message);
}

// Whether a signature of a message verifies with a key.
#[unsafe(no_mangle)]
pub extern "C" fn bleiwurzel_rsa_verify(key: &[u8], signature: &[u8], message: &[u8]) -> bool
    ensures { result ≡ verifies key.now signature.now message.now }
{
    rsa::verify(key, signature, message)
}
