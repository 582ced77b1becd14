// The parts of a description, in the order of the file: each is judged, and its bytes are put into a buffer.
ghost use Rattle.std.specs.Prelude.{◌≡◌, ◌≤◌, ◌<◌, ◌^◌, length as ListN·length, drop};
ghost use Rattle.policy_writer.specs.Decode.{written_type, times};
ghost use Rattle.policy_writer.specs.Decode as Decode;
ghost use Rattle.policy_writer.specs.Inner.{put, element_given, element_text, list_head, file_head, next_of, part_at, up_to, Put, Within, Start};

use crate::Cursor;
use crate::puts::{put_bytes, put_number};
use policy_answers::{CUSTOM_TYPE, LAUNCH_TYPE};
use policy_reader::{FIRST_LIST, LIST_COUNT, MARK, MOST_LISTS, UNSIGNED, ZEROS};

// The largest number of 32 bits: that of an element's size, and of the size of a list's elements.
const LARGEST_SIZE: usize = 0xFFFF_FFFF;

// A number of the description. The contract hands on that it has 32 bits, on which the sums below rest.
fn wide(x: u32) -> usize
    ensures { (result ≡ x) × (result < 2 ^ 32) }
{
    x as usize
}

// Whether elements of the type are written.
fn written_type(kind: usize) -> bool
    ensures { result ≡ written_type kind }
{
    matches!(kind, LAUNCH_TYPE | CUSTOM_TYPE)
}

// Whether an element of a type is written with a body of so many bytes, which stands from `from` on.
fn element_given(kind: usize, length: usize, bodies: &[u8], from: usize) -> bool
    requires { (length < 2 ^ 32) × (from ≤ ListN·length bodies.now) }
    ensures { result ≡ element_given kind length (drop from bodies.now) }
{
    if !written_type(kind) {
        return false;
    }
    if LARGEST_SIZE < 12 + length {
        return false;
    }
    if bodies.len() - from < length {
        return false;
    }
    let end = from + length;
    policy_reader::fills_body(kind, &bodies[from..end])
}

// The bytes of an element with a body.
fn put_element(out: &mut [u8], to: usize, kind: usize, control: usize, body: &[u8])
    requires { (to < 2 ^ 41) × (ListN·length body.now < 2 ^ 32) }
    ensures { out.new ≡ put out.old to (element_text kind control body.now) }
{
    put_number(out, to, 4, 12 + body.len());
    put_number(out, to + 4, 4, kind);
    put_number(out, to + 8, 4, control);
    put_bytes(out, to + 12, body);
}

// An element. Numbers, bodies and buffer are handed on one by one: of a slice in a struct the check does not say that its bytes are below 256, which
// the laws of the grammar need, so that with a struct of the first two these functions had no proof.
fn element(numbers: &[u32], bodies: &[u8], out: &mut [u8], c: Cursor) -> Option<Cursor>
    requires { Within numbers.now bodies.now (2 ^ 40) c }
    ensures next { result ≡ next_of Decode.element c (part_at Decode.element numbers.now bodies.now c) }
    ensures put { Put Decode.element numbers.now bodies.now c out.old result out.new }
{
    let at = c.numbers;
    let from = c.bodies;
    let to = c.bytes;
    if numbers.len() - at < 3 {
        return None;
    }
    let kind = wide(numbers[at]);
    let control = wide(numbers[at + 1]);
    let length = wide(numbers[at + 2]);
    if !element_given(kind, length, bodies, from) {
        return None;
    }
    let end = from + length;
    put_element(out, to, kind, control, &bodies[from..end]);
    Some(Cursor {
        numbers: at + 3,
        bodies: end,
        bytes: to + 12 + length,
    })
}

// So many elements, of at most LARGEST_SIZE bytes.
fn elements(
    numbers: &[u32],
    bodies: &[u8],
    out: &mut [u8],
    start: Cursor,
    count: usize,
) -> Option<Cursor>
    requires { Within numbers.now bodies.now (2 ^ 39) start }
    ensures next { result ≡ up_to start (next_of (times count Decode.element) start (part_at (times count Decode.element) numbers.now bodies.now start)) }
    ensures put { Put (times count Decode.element) numbers.now bodies.now start out.old result out.new }
{
    let first = start.bytes;
    let mut c = start;
    for _ in 0..count {
        let next = element(numbers, bodies, out, c)?;
        if LARGEST_SIZE < next.bytes - first {
            return None;
        }
        c = next;
    }
    Some(c)
}

// The bytes of a list before its elements, which have so many bytes.
fn put_list_head(out: &mut [u8], to: usize, version: usize, size: usize)
    requires { to < 2 ^ 39 }
    ensures { out.new ≡ put out.old to (list_head version size) }
{
    put_number(out, to, 2, version);
    put_number(out, to + 2, 2, UNSIGNED);
    put_number(out, to + 4, 4, size);
}

// A list. The size of its elements, which stands before them, is known behind them.
fn list(numbers: &[u32], bodies: &[u8], out: &mut [u8], c: Cursor) -> Option<Cursor>
    requires { Within numbers.now bodies.now (2 ^ 38) c }
    ensures next { result ≡ next_of Decode.list c (part_at Decode.list numbers.now bodies.now c) }
    ensures put { Put Decode.list numbers.now bodies.now c out.old result out.new }
{
    let at = c.numbers;
    let to = c.bytes;
    if numbers.len() - at < 2 {
        return None;
    }
    let version = wide(numbers[at]);
    let count = wide(numbers[at + 1]);
    if !policy_reader::known_version(version) {
        return None;
    }
    let first = to + 8;
    let start = Cursor {
        numbers: at + 2,
        bodies: c.bodies,
        bytes: first,
    };
    let next = elements(numbers, bodies, out, start, count)?;
    put_list_head(out, to, version, next.bytes - first);
    Some(next)
}

// So many lists.
fn lists(
    numbers: &[u32],
    bodies: &[u8],
    out: &mut [u8],
    start: Cursor,
    count: usize,
) -> Option<Cursor>
    requires { Within numbers.now bodies.now 36 start × (count < 9) }
    ensures next { result ≡ next_of (times count Decode.list) start (part_at (times count Decode.list) numbers.now bodies.now start) }
    ensures put { Put (times count Decode.list) numbers.now bodies.now start out.old result out.new }
{
    let mut c = start;
    for _ in 0..count {
        c = list(numbers, bodies, out, c)?;
    }
    Some(c)
}

// The bytes of a file before its lists.
fn put_file_head(out: &mut [u8], count: usize)
    ensures { out.new ≡ put out.old 0 (file_head count) }
{
    put_bytes(out, 0, &MARK);
    put_number(out, ZEROS, 3, 0);
    put_number(out, LIST_COUNT, 1, count);
}

// A file, from the first number and the first body on.
pub(crate) fn file(numbers: &[u32], bodies: &[u8], out: &mut [u8]) -> Option<Cursor>
    ensures next { result ≡ next_of Decode.file Start (part_at Decode.file numbers.now bodies.now Start) }
    ensures put { Put Decode.file numbers.now bodies.now Start out.old result out.new }
{
    if numbers.len() < 1 {
        return None;
    }
    let count = wide(numbers[0]);
    if count < 1 {
        return None;
    }
    if MOST_LISTS < count {
        return None;
    }
    put_file_head(out, count);
    let start = Cursor {
        numbers: 1,
        bodies: 0,
        bytes: FIRST_LIST,
    };
    let next = lists(numbers, bodies, out, start, count)?;
    if next.numbers < numbers.len() {
        return None;
    }
    if next.bodies < bodies.len() {
        return None;
    }
    Some(next)
}
