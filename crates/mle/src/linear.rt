// The pages of the MLE in linear order: where each lies, the digest of their bytes, and the page list. No page is copied or stored:
// each is found again from the tables.
ghost use Rattle.std.specs.Prelude.{◌≡◌};
ghost use Rattle.mle.specs.Image.{address_at, bytes_at, image_digest, page_list};

use crate::Image;
use pages::Tables;
use range::PAGE_SIZE;

// The physical address of the linear page l.
#[tactic(auto, unfolding(crate::specs::Image::address_at))]
pub(crate) fn address(w: &[u8], image: Image, l: u64) -> u64
    ensures { result ≡ address_at w.now image l }
{
    let tables = Tables {
        window: image.window_in(w),
        base: image.tables,
    };
    pages::address(tables.page(l))
}

// The bytes of the page at the physical address a, as a part of the window; none where the page is not wholly inside.
pub(crate) fn page_bytes(w: &[u8], image: Image, a: u64) -> &[u8]
    ensures { result.now ≡ bytes_at w.now image a }
{
    if !image.window_in(w).has_page(a) {
        return &w[..0];
    }
    let at = (a - image.window) as usize;
    let end = at + PAGE_SIZE as usize;
    &w[at..end]
}

// The digest of the pages, each absorbed where it stands in the window.
pub fn digest(w: &[u8], image: Image) -> [u8; 32]
    ensures { result ≡ image_digest w.now image }
{
    let mut state = sha256::start();
    for k in 0..image.count {
        let a = address(w, image, image.first as u64 + k as u64);
        let next = sha256::absorb(state, page_bytes(w, image, a));
        state = next;
    }
    sha256::finish(state)
}

// Writes the addresses of the pages to the first places of the list, where it has as many; its other places stay.
pub fn write_pages(w: &[u8], image: Image, pages: &mut [u64])
    ensures { pages.new ≡ page_list w.now image pages.old }
{
    let count = image.count as usize;
    if pages.len() < count {
        return;
    }
    // A proof knows no element of what was written through an iterator, once it is done: so each place is written by its index.
    for k in 0..count {
        pages[k] = address(w, image, image.first as u64 + k as u64);
    }
}
