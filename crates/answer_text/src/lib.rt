// The text of the answer: the first line, the line of a page, and the whole output in a buffer that the caller lends.
#![tactic(auto)]

mod digits;
mod line;

ghost use Rattle.std.specs.Prelude.{◌≡◌, [], ◌++◌, ◌+◌, ◌*◌, ◌<◌, ◌≤◌, length, take, drop};
ghost use Rattle.std.proofs.Math.Seq.{paste};
ghost use Rattle.answer_text.specs.Text.{output as Text·output, written, refused_line, first_line, page_line, page_lines, shown_pages, output_length, output_in, AtFront};
ghost use Rattle.answer_text.specs.Text.{hex_digit as Text·hex_digit};

use crate::line::{FIRST_LINE, Line};
use answer::Answer;

// The number that is shown with its place: the policy file is not of the grammar. An answer has its number as C has it, so it is compared as one.
const NOT_OF_GRAMMAR: u32 = 27;

const ADDRESS_DIGITS: usize = 16;

// The length of the line of a page.
const PAGE_LINE: usize = 17;

// What a program for captures lends: places for pages, and room for the text of the answer, the first line and a line for each page.
pub const PLACES: usize = 4096;

pub const OUTPUT: usize = FIRST_LINE + PAGE_LINE * PLACES;

// A digit as its byte. What `{:x}` writes is said by no contract, and `output` promises each byte.
fn hex_digit(d: u64) -> u8
    requires { d < 16 }
    ensures { result ≡ Text·hex_digit d }
{
    if d < 10 {
        b'0' + d as u8
    } else {
        b'a' + (d - 10) as u8
    }
}

// The first line of a refusal: its number, and where the policy file is not of the grammar the place of the first fault in it.
fn refused_line(a: Answer) -> Line
    ensures { written result ≡ refused_line a }
{
    let number = Line::new().with_text(b"refused ").with_number(a.number);
    if a.number == NOT_OF_GRAMMAR {
        let place = number.with_text(b" at ").with_number(a.place);
        return place.with_text(b"\n");
    }
    number.with_text(b"\n")
}

// The first line: what is answered, and on permission how many pages there are and which list permits.
fn first_line(a: Answer) -> Line
    ensures { written result ≡ first_line a }
{
    if a.number == 0 {
        let pages = Line::new()
            .with_text(b"permitted pages=")
            .with_number(a.pages);
        let list = pages.with_text(b" list=").with_number(a.list);
        return list.with_text(b"\n");
    }
    refused_line(a)
}

// The line of a page: its address.
fn page_line(a: u64) -> [u8; 17]
    ensures { result ≡ page_line a }
{
    let mut bytes = [b'\n'; 17];
    let mut left = a;
    for at in (0..ADDRESS_DIGITS).rev() {
        bytes[at] = hex_digit(left % 16);
        left /= 16;
    }
    bytes
}

// Puts the lines of pages into the buffer from `at` on.
fn put_pages(out: &mut [u8], at: usize, pages: &[u64])
    requires { at + 17 * length pages.now ≤ length out.old }
    ensures { out.new ≡ paste out.old at (page_lines pages.now) (17 * length pages.now) }
{
    for (i, page) in pages.iter().enumerate() {
        let from = at + PAGE_LINE * i;
        out[from..from + PAGE_LINE].copy_from_slice(&page_line(*page));
    }
}

// The pages at the front of a page list that are shown: none on a refusal.
fn shown(a: Answer, pages: &[u64]) -> &[u64]
    ensures { result.now ≡ shown_pages a pages.now }
{
    if a.number != 0 {
        return &pages[..0];
    }
    &pages[..pages.len().min(a.pages as usize)]
}

// Writes the output for an answer and a page list to the front of the buffer and gives its length. Where the buffer has no room for it, the buffer
// stays as it is and the length is 0.
fn output_in(a: Answer, pages: &[u64], out: &mut [u8]) -> usize
    ensures length { result ≡ output_length a pages.now out.old }
    ensures text { out.new ≡ output_in a pages.now out.old }
    ensures front { AtFront result out.new }
{
    let line = first_line(a);
    let text = line.as_bytes();
    let shown = shown(a, pages);
    if out.len() < text.len() {
        return 0;
    }
    if (out.len() - text.len()) / PAGE_LINE < shown.len() {
        return 0;
    }
    out[..text.len()].copy_from_slice(text);
    put_pages(out, text.len(), shown);
    text.len() + PAGE_LINE * shown.len()
}

// The whole output at the front of the buffer that a program lends, whose other bytes stay: how many bytes it has. There is room for every answer.
pub fn output(a: Answer, pages: &[u64; PLACES], out: &mut [u8; OUTPUT]) -> usize
    ensures length { result ≡ length (Text·output a pages.now) }
    ensures text { out.new ≡ Text·output a pages.now ++ drop (length (Text·output a pages.now)) out.old }
    ensures front { AtFront result out.new }
{
    output_in(a, pages, out)
}
