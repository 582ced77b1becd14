// Input for the programs: bytes that are read into a buffer that the caller lends, files by name, and the line that says why a name could not be read. What
// the bytes of a file are is the operating system's; what is answered for a capture is said by the contracts of `capture`.
#![tactic(auto)]

ghost use Rattle.std.specs.Prelude.{◌≡◌, ℕ, ◌<◌, List, take, IfOk, IfSome, IsTrue, IsUtf8};
ghost use Rattle.std.specs.Counts.{IsPrefixLen};
ghost use Rattle.std.specs.Io.KnownBytes.{Consumes, IsAtEnd};
ghost use Rattle.capture_io.specs.Unread.{words, unread_line};

use std::alloc::{AllocError, Global};
use std::io::Read;
use std::rt::Files;
use std::{fs, io, str};

// Reads until the buffer is full, the input ends or a read fails: how many bytes stand at the front of the buffer. A read that a signal interrupts
// counts as one that failed. Of an input whose bytes are known, these are its next ones.
// It reads in a loop of its own, since `read_exact` and `read_to_end` do not say how much of the input stands in the buffer where a read fails.
pub fn read_full<R: Read>(input: &mut R, buffer: &mut [u8]) -> usize
    ensures in_bounds { IsPrefixLen result buffer.new }
    ensures bytes { Consumes (R.remaining input.old) (R.remaining input.new) (take result buffer.new) }
{
    let mut done = 0;
    while done < buffer.len() {
        match input.read(&mut buffer[done..]) {
            Ok(0) => break,
            Ok(n) => done += n,
            Err(_) => break,
        }
    }
    done
}

// Whether the input ends here. Where reading fails, that is not known, and it counts as no end.
fn ended<R: Read>(input: &mut R) -> bool
    ensures { IsTrue result → IsAtEnd (R.remaining input.old) }
{
    let mut next = [0u8; 1];
    matches!(input.read(&mut next), Ok(0))
}

// How many bytes at the front of the buffer are the whole input; 0, and so no capture, where the input was not read to its end. It answers for every
// input, so that it is no Option: `whole` speaks of this number.
pub fn read_whole<R: Read>(input: &mut R, buffer: &mut [u8]) -> usize
    ensures in_bounds { IsPrefixLen result buffer.new }
    ensures whole { 0 < result → IfSome (R.remaining input.old) (λ bytes. take result buffer.new ≡ bytes) }
{
    let n = read_full(input, buffer);
    if ended(input) { n } else { 0 }
}

// The file of a name, opened for reading; which file that is, and whether there is one, is the operating system's. The paths of std are text, so a
// name that is not names no file.
pub fn open<R: Files>(rt: &R, name: &[u8]) -> io::Result<R::File>
    ensures { IfOk result (λ _. IsUtf8 name.now) }
{
    match str::from_utf8(name) {
        Ok(path) => fs::open(rt, path),
        Err(_) => Err(io::Error::new(io::ErrorKind::InvalidFilename, "Not a name in UTF-8")),
    }
}

// What std puts behind the system's words for an error begins so; its number follows.
const NUMBERED: &[u8] = b" (os error ";

// The system's words for an error, of what std shows for it.
fn words(text: &[u8]) -> &[u8]
    ensures { result.now ≡ words text.now }
{
    for end in 0..text.len() {
        if text[end..].starts_with(NUMBERED) {
            return &text[..end];
        }
    }
    text
}

// The line for standard error of a name that could not be read: the name, a colon, and why, of what std shows for the error.
pub fn unread_line(alloc: Global, name: &[u8], why: &[u8]) -> Result<Vec<u8>, AllocError>
    ensures { IfOk result (λ line. line.items ≡ unread_line name.now why.now) }
{
    let mut line = Vec::new(alloc);
    line.extend_from_slice(name)?;
    line.extend_from_slice(b": ")?;
    line.extend_from_slice(words(why))?;
    line.extend_from_slice(b"\n")?;
    Ok(line)
}

// The same for an error of std, whose text is what std shows for it.
pub fn unread(alloc: Global, name: &[u8], why: &io::Error) -> io::Result<Vec<u8>>
    ensures { IfOk result (λ line. (text : List ℕ) × (line.items ≡ unread_line name.now text)) }
{
    let text = format!(in alloc; "{why}")?;
    let line = unread_line(alloc, name, text.as_bytes())?;
    Ok(line)
}
