// The reader of policy files: the number of a string with the place of its first fault, the list and the element at an offset, and whether bytes are a body.
//
// No public function asks anything of its caller: any slice of any length, and any offset. To walk an accepted string once, take `list_at` from
// FIRST_LIST on, each list after the one before it, and `element_at` in the string up to the end of a list's elements; the laws of such a loop are in
// proofs/Walk.antt.
//
// What is read at the front of a string is answered as how many bytes it takes, or the offset of its first fault: a `Result<usize, Fault>`.
#![tactic(auto)]

mod at_offset;
mod elements;
mod extents;
mod file;
mod lists;
mod numbers;

pub use at_offset::{element_at, list_at};
pub use elements::fills_body;
pub use file::read;
pub use lists::known_version;

// The mark of every file: 28 characters and 4 zeros.
pub const MARK: [u8; 32] = *b"Intel(R) TXT LCP_POLICY_DATA\0\0\0\0";

// The offsets of the zeros behind the mark, and of the list count.
pub const ZEROS: usize = 32;

pub const LIST_COUNT: usize = 35;

// The signature algorithm of a list that is not signed, and of one that is.
pub const UNSIGNED: usize = 0x0010;

pub(crate) const SIGNED: usize = 0x0014;

// The offset of the first list of every file.
pub const FIRST_LIST: usize = 36;

// The least and the largest size of a file: none is shorter than what stands before its lists.
pub const LEAST_FILE: usize = FIRST_LIST;

pub const LARGEST_FILE: usize = 65536;

// The most lists of a file.
pub const MOST_LISTS: usize = 8;
