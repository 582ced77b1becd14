// A line of text, in an array: the check's programs take no memory from the system. It is written by pieces, each behind the one before.
ghost use Rattle.std.specs.Prelude.{◌≡◌, [], ◌++◌, ◌+◌, ◌≤◌, length};

use crate::digits::decimal;

// The most bytes of a line.
pub(crate) const FIRST_LINE: usize = 48;

// The first `len` bytes of the array. What is behind them is free.
#[derive(Clone, Copy)]
pub(crate) struct Line {
    bytes: [u8; FIRST_LINE],
    len: usize,
    ghost fits: { len ≤ 48 },
}

impl Line {
    ghost use Rattle.answer_text.specs.Text.{written, decimal as Text·decimal};

    pub(crate) fn new() -> Line
        ensures { (result.len ≡ 0) × (written result ≡ []) }
    {
        Line {
            bytes: [0u8; FIRST_LINE],
            len: 0,
        }
    }

    // The line with some text behind it.
    pub(crate) fn with_text(self, s: &[u8]) -> Line
        requires { self.len + length s.now ≤ 48 }
        ensures { (result.len ≡ self.len + length s.now) × (written result ≡ written self ++ s.now) }
    {
        let mut bytes = self.bytes;
        let len = self.len + s.len();
        bytes[self.len..len].copy_from_slice(s);
        Line { bytes, len }
    }

    // The line with a number behind it.
    pub(crate) fn with_number(self, n: u32) -> Line
        requires { self.len + 10 ≤ 48 }
        ensures { (result.len ≤ self.len + 10) × (written result ≡ written self ++ Text·decimal n) }
    {
        let d = decimal(n);
        self.with_text(&d.bytes[d.start..])
    }

    pub(crate) fn as_bytes(&self) -> &[u8]
        ensures { result.now ≡ written self.now }
    {
        &self.bytes[..self.len]
    }
}
