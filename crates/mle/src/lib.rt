// The MLE in the window: its size (rule 12), its header (rule 22), the digest of its pages, and the page list.
#![tactic(auto)]

mod header;
mod linear;

ghost use Rattle.std.specs.Prelude.{◌≡◌};

pub use header::{header_holds, size_holds};
pub use linear::{digest, write_pages};
use pages::Window;

// Where the pages of the MLE are found: where the window begins, the table base, the first linear page, and how many pages there are.
#[derive(Clone, Copy)]
pub struct Image {
    pub window: u64,
    pub tables: u64,
    pub first: u32,
    pub count: u32,
}

impl Image {
    // The window, whose bytes are lent beside the image: the stages hand an image on by value, in records that lend nothing.
    fn window_in(self, w: &[u8]) -> Window
        ensures same_bytes { result.bytes.now ≡ w.now }
        ensures same_base { result.base ≡ self.window }
    {
        Window {
            bytes: w,
            base: self.window,
        }
    }
}
