// Answers for the capture on standard input: one line for a refusal; for a permission a line with its counts, and a line for each page. Input, pages and
// text have fixed buffers, of the sizes that the library says.
#![tactic(auto)]

use std::io;

fn main(rt: HostRuntime) -> io::Result<()> {
    let mut buffer = [0u8; capture::INPUT];
    let mut pages = [0u64; answer_text::PLACES];
    let mut text = [0u8; answer_text::OUTPUT];
    let n = capture_io::read_whole(&mut rt.reader(), &mut buffer);
    let a = capture::check(&buffer[..n], &mut pages);
    let len = answer_text::output(a, &pages, &mut text);
    rt.write_all(&text[..len])
}
