// Numbers as words of 32 bits, the lowest word first.
ghost use Rattle.std.specs.Prelude.{◌≡◌, ◌+◌, ◌*◌, ◌/◌, ◌%◌, ◌^◌, ◌<◌, ltb, eqb, length, get_or};
ghost use Rattle.rsa.specs.Words.{value, power};
ghost use Rattle.rsa.specs.Inner.{little_endian, Callable, Carried};

// The first number that a word does not hold.
const RADIX: u64 = 4294967296;

// The two words of a number, by `as`, which is proved to lose nothing here: `try_from` answers a Result, whose error would have to be handled.
pub(crate) fn low(x: u64) -> u32
    ensures { result ≡ x % 2 ^ 32 }
{
    (x % RADIX) as u32
}

pub(crate) fn high(x: u64) -> u32
    ensures { result ≡ x / 2 ^ 32 }
{
    (x / RADIX) as u32
}

// x * y + t + c, which two words hold.
pub(crate) fn accumulated(x: u32, y: u32, t: u32, c: u32) -> u64
    ensures { result ≡ x * y + t + c }
{
    u64::from(x) * u64::from(y) + u64::from(t) + u64::from(c)
}

// The sum at each place, from the lowest up: of the place, the word there and the carry of the place below. The low word is put there, and
// the high one carried. The answer is the last carry. This loop and that of `load` count, since an invariant over `iter_mut().zip(..)` has no
// name for the words that are written.
fn carried<F: Fn(usize, u32, u32) -> u64>(t: &mut [u32], first: u32, sum: F) -> u32
    requires { Callable (F.pre sum) (length t.old) }
    ensures { Carried (F.post sum) t.old first t.new result }
{
    let mut c = first;
    for j in 0..t.len() {
        let s = sum(j, t[j], c);
        t[j] = low(s);
        c = high(s);
    }
    c
}

// t + x * b in place, and the word that is carried out.
pub(crate) fn row(t: &mut [u32], x: u32, b: &[u32]) -> u32
    requires { length b.now ≡ length t.old }
    ensures { value t.new + power (length t.old) * result ≡ value t.old + x * value b.now }
{
    carried(t, 0, |j, w, c| accumulated(x, b[j], w, c))
}

// 2 * t in place, and the bit that is carried out.
pub(crate) fn double(t: &mut [u32]) -> u32
    ensures { value t.new + power (length t.old) * result ≡ 2 * value t.old }
{
    carried(t, 0, |_j, w, c| accumulated(2, w, 0, c))
}

// t - n in place: the complement of n is added, and 1. The bit that is carried out is 0 where n is more than t.
pub(crate) fn subtract(t: &mut [u32], n: &[u32]) -> u32
    requires { length n.now ≡ length t.old }
    ensures { value t.new + power (length t.old) * result + value n.now ≡ value t.old + power (length t.old) }
{
    carried(t, 1, |j, w, c| accumulated(1, w, u32::MAX - n[j], c))
}

// The number 2^(32 * l - 16), l the length in words.
pub(crate) fn high_bit(t: &mut [u32])
    requires { 0 < length t.old }
    ensures { 65536 * value t.new ≡ power (length t.old) }
{
    t.fill(0);
    let last = t.len() - 1;
    t[last] = 65536;
}

// The words moved one place down, with a new highest word.
pub(crate) fn shift(t: &mut [u32], top: u32)
    requires { 0 < length t.old }
    ensures { 2 ^ 32 * value t.new + get_or t.old 0 0 ≡ value t.old + power (length t.old) * top }
{
    let last = t.len() - 1;
    t.copy_within(1.., 0);
    t[last] = top;
}

pub(crate) fn less(a: &[u32], b: &[u32]) -> bool
    requires { length b.now ≡ length a.now }
    ensures { result ≡ ltb (value a.now) (value b.now) }
{
    for j in (0..a.len()).rev() {
        if a[j] != b[j] {
            return a[j] < b[j];
        }
    }
    false
}

pub(crate) fn same(a: &[u32], b: &[u32]) -> bool
    requires { length b.now ≡ length a.now }
    ensures { result ≡ eqb (value a.now) (value b.now) }
{
    a == b
}

// The words of a byte string.
pub(crate) fn load(t: &mut [u32], s: &[u8])
    requires { length s.now ≡ 4 * length t.old }
    ensures { value t.new ≡ little_endian s.now }
{
    for j in 0..t.len() {
        t[j] = u32::from_le_bytes([s[4 * j], s[4 * j + 1], s[4 * j + 2], s[4 * j + 3]]);
    }
}
