// The page tables: entries of three kinds, the walk over all of them in breadth-first order (rules 14 to 20), and the entry of a linear page.
#![tactic(auto)]

mod entry;
mod levels;
mod placement;
mod progress;
mod tables;
mod window;

pub use entry::address;
pub use levels::walk;
use range::Range;
pub use tables::Tables;
pub use window::Window;

// Where an entry stands: in the pointer table, in a directory or in a page table. The rules of the specification are given by cases of the kind, and so
// is the code for each: a trait with a type for each kind would be longer, and would say the cases less plainly.
#[derive(Clone, Copy)]
pub enum Kind {
    Pointer,
    Directory,
    Page,
}

// Where the window begins, and the ranges of memory that the rules name, but for those that the platform reserves: these are lent beside it, as numbers.
#[derive(Clone, Copy)]
pub struct MemoryRanges {
    pub window: u64,
    pub heap: Range,
    pub sinit: Range,
    pub dpr: Range,
    pub low: Range,
    pub high: Range,
}

// The linear pages that are mapped: the first, and how many follow one another from it.
#[derive(Clone, Copy)]
pub struct Mapped {
    pub first: u32,
    pub count: u32,
}
