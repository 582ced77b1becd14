// The window: the bytes of memory in which the pages and their tables lie.
ghost use Rattle.std.specs.Prelude.{◌≡◌};
ghost use Rattle.range.specs.Range.{inside_of};
ghost use Rattle.pages.specs.Memory.{page_of, window_of};

use range::{PAGE_SIZE, Range};

// Bytes of memory from a base on.
#[derive(Clone, Copy)]
pub struct Window<'a> {
    pub bytes: &'a [u8],
    pub base: u64,
}

impl<'a> Window<'a> {
    // Whether the page at a lies inside.
    pub fn has_page(&self, a: u64) -> bool
        ensures { result ≡ inside_of (page_of a) (window_of self.now.bytes.now self.now.base) }
    {
        let page = Range {
            base: a,
            size: PAGE_SIZE,
        };
        let window = Range {
            base: self.base,
            size: self.bytes.len() as u64,
        };
        range::inside(page, window)
    }
}
