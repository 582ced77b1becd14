// Entries by their number in a level, found from the table base through the indices of the tables above.
ghost use Rattle.std.specs.Prelude.{◌≡◌, ◌≤◌};
ghost use Rattle.pages.specs.Tables.{entries, read_of, under_of, pointer_at, directory_at, page_at, entry_at};

use crate::Kind;
use crate::entry::{address, present};
use crate::window::Window;

pub const POINTERS: u64 = 4;

pub const ENTRIES: u64 = 512;

// The tables at a base, in the window.
#[derive(Clone, Copy)]
pub struct Tables<'a> {
    pub window: Window<'a>,
    pub base: u64,
}

impl<'a> Tables<'a> {
    // Entry i of the n of the table at a; 0, which is not present, where there is none.
    #[tactic(auto, unfolding(crate::specs::Tables::read_of))]
    fn read(&self, a: u64, n: u64, i: u64) -> u64
        requires { n ≤ entries }
        ensures { result ≡ read_of self.now.window.bytes.now self.now.window.base a n i }
    {
        if n <= i {
            return 0;
        }
        if !self.window.has_page(a) {
            return 0;
        }
        field::number_or_zero(
            self.window.bytes,
            (a - self.window.base + 8 * i) as usize,
            8,
        )
    }

    // Entry i of the table that e names.
    #[tactic(auto, unfolding(crate::specs::Tables::under_of))]
    fn under(&self, e: u64, i: u64) -> u64
        ensures { result ≡ under_of self.now.window.bytes.now self.now.window.base e i }
    {
        if present(e) {
            self.read(address(e), ENTRIES, i)
        } else {
            0
        }
    }

    #[tactic(auto, unfolding(crate::specs::Tables::pointer_at))]
    fn pointer(&self, l: u64) -> u64
        ensures { result ≡ pointer_at self.now.window.bytes.now self.now.window.base self.now.base l }
    {
        self.read(self.base, POINTERS, l)
    }

    #[tactic(auto, unfolding(crate::specs::Tables::directory_at))]
    pub(crate) fn directory(&self, l: u64) -> u64
        ensures { result ≡ directory_at self.now.window.bytes.now self.now.window.base self.now.base l }
    {
        self.under(self.pointer(l / ENTRIES), l % ENTRIES)
    }

    // The page-table entry of the linear page l; 0, which is not present, where there is none.
    #[tactic(auto, unfolding(crate::specs::Tables::page_at))]
    pub fn page(&self, l: u64) -> u64
        ensures { result ≡ page_at self.now.window.bytes.now self.now.window.base self.now.base l }
    {
        self.under(self.directory(l / ENTRIES), l % ENTRIES)
    }

    // The entry with a number in the level of its kind.
    pub(crate) fn entry(&self, kind: Kind, l: u64) -> u64
        ensures { result ≡ entry_at kind self.now.window.bytes.now self.now.window.base self.now.base l }
    {
        match kind {
            Kind::Pointer => self.pointer(l),
            Kind::Directory => self.directory(l),
            Kind::Page => self.page(l),
        }
    }
}
