// Bytes and numbers that are put into a buffer. What is past the buffer's end is not put: with an empty buffer a walk finds the size of a file without
// a byte being written.
ghost use Rattle.std.specs.Prelude.{◌≡◌, ◌+◌, ◌≤◌, ◌<◌, ◌^◌, length};
ghost use Rattle.field.specs.Number.{bytes};
ghost use Rattle.policy_writer.specs.Inner.{put, Placed};

// How many of n bytes from `at` on lie within a buffer of so many bytes. The loops below go so far; a copy of slices would ask for a test of the empty
// case and a cut on both sides, and is no plainer.
fn placed(room: usize, at: usize, n: usize) -> usize
    ensures { Placed room at n result }
{
    if room <= at {
        return 0;
    }
    if room - at < n {
        return room - at;
    }
    n
}

// The bytes of s from `at` on.
pub(crate) fn put_bytes(out: &mut [u8], at: usize, s: &[u8])
    requires { at + length s.now < 2 ^ 64 }
    ensures { out.new ≡ put out.old at s.now }
{
    let n = placed(out.len(), at, s.len());
    for k in 0..n {
        out[at + k] = s[k];
    }
}

// A number of `width` bytes from `at` on, its lowest byte first.
pub(crate) fn put_number(out: &mut [u8], at: usize, width: usize, x: usize)
    requires { at + width < 2 ^ 64 }
    ensures { out.new ≡ put out.old at (bytes width x) }
{
    let last = placed(out.len(), at, width);
    let mut left = x;
    for k in 0..last {
        out[at + k] = (left % 256) as u8;
        left = left / 256;
    }
}
