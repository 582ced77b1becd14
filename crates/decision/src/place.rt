// Where the policy file stands in the window: rule 26.
ghost use Rattle.std.specs.Prelude.{◌≡◌};
ghost use Rattle.rules.specs.Rules.{all};
ghost use Rattle.decision.specs.Lists.{file_placed, file_of};

use range::Range;

// Whether a file of `size` bytes at `base` is of a size that is read and wholly in the window w, which begins at `window`.
pub fn file_placed(w: &[u8], window: u64, base: u64, size: u64) -> bool
    ensures { result ≡ all (file_placed w.now window base size) }
{
    if size < policy_reader::LEAST_FILE as u64 {
        return false;
    }
    if (policy_reader::LARGEST_FILE as u64) < size {
        return false;
    }
    let whole = Range {
        base: window,
        size: w.len() as u64,
    };
    range::inside(Range { base, size }, whole)
}

// The file as the part of the window where it stands; none of the window's bytes where it is not placed.
pub fn file(w: &[u8], window: u64, base: u64, size: u64) -> &[u8]
    ensures { result.now ≡ file_of w.now window base size }
{
    if !file_placed(w, window, base, size) {
        return &w[..0];
    }
    let at = (base - window) as usize;
    let end = at + size as usize;
    &w[at..end]
}
