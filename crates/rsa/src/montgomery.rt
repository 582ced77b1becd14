// Arithmetic modulo an odd number n, with Montgomery's product: a * b / R modulo n, R = 2^(32 * l), l the length of n in words.
ghost use Rattle.std.specs.Prelude.{◌≡◌, ℕ, ◌+◌, ◌*◌, ◌%◌, ◌^◌, ◌<◌, length, get_or};
ghost use Rattle.rsa.specs.Words.{value};
ghost use Rattle.rsa.specs.Rsa.{rsavp1};
ghost use Rattle.rsa.specs.Montgomery.{radix, extended, Operands, Stepped, Product, Fourth, Lifted, Base};

use crate::words::{accumulated, high, high_bit, less, low, row, shift, subtract};

// A step of Newton's iteration: n * r + 1 becomes its square, modulo 2^32.
fn newton(n: u32, r: u32) -> u32
    ensures { (d : ℕ) → (n * r + 1) % d ≡ 0 → 2 ^ 32 % (d * d) ≡ 0 → (n * result + 1) % (d * d) ≡ 0 }
{
    low(accumulated(r, low(accumulated(n, r, 2, 0)), 0, 0))
}

// The negative inverse of an odd n modulo 2^32.
fn inverse(n: u32) -> u32
    requires { n % 2 ≡ 1 }
    ensures { (n * result + 1) % 2 ^ 32 ≡ 0 }
{
    let r1 = newton(n, 1);
    let r2 = newton(n, r1);
    let r3 = newton(n, r2);
    let r4 = newton(n, r3);
    newton(n, r4)
}

// An odd modulus n, and its negative inverse modulo 2^32.
#[derive(Clone, Copy)]
pub(crate) struct Modulus<'a> {
    words: &'a [u32],
    inverse: u32,
    ghost fit: { (i : ℕ) → get_or words.now i 0 < 2 ^ 32 },
    ghost odd: { value words.now % 2 ≡ 1 },
    ghost negative: { (get_or words.now 0 0 * inverse + 1) % 2 ^ 32 ≡ 0 },
}

// That a number which is lent has as many words as the modulus is asked where it is lent: it ties the two, and is neither's own.
impl<'a> Modulus<'a> {
    pub(crate) fn new(words: &'a [u32]) -> Modulus<'a>
        requires { value words.now % 2 ≡ 1 }
        ensures { result.words.now ≡ words.now }
    {
        Modulus {
            words,
            inverse: inverse(words[0]),
        }
    }

    // t with its top word modulo n.
    fn reduce(&self, t: &mut [u32], top: u32)
        requires { (length t.old ≡ length self.now.words.now) × (extended self.now.words.now t.old top < 2 * value self.now.words.now) }
        ensures { value t.new ≡ extended self.now.words.now t.old top % value self.now.words.now }
    {
        let n = self.words;
        if top == 0 {
            if less(t, n) {
                return;
            }
            subtract(t, n);
            return;
        }
        subtract(t, n);
    }

    // 2 * t modulo n.
    fn double(&self, t: &mut [u32])
        requires { (length t.old ≡ length self.now.words.now) × (value t.old < value self.now.words.now) }
        ensures { value t.new ≡ 2 * value t.old % value self.now.words.now }
    {
        let top = crate::words::double(t);
        self.reduce(t, top);
    }

    // 2^count * t modulo n.
    fn double_times(&self, t: &mut [u32], count: usize)
        requires { (length t.old ≡ length self.now.words.now) × (value t.old < value self.now.words.now) }
        ensures { value t.new ≡ 2 ^ count * value t.old % value self.now.words.now }
    {
        for _k in 0..count {
            self.double(t);
        }
    }

    // (t + x * b) / 2^32 modulo n, t with its top word: a multiple of n is added that makes the lowest word 0.
    fn step(&self, t: &mut [u32], top: u32, x: u32, b: &[u32]) -> u32
        requires { Operands t.old b.now self.now.words.now × (extended self.now.words.now t.old top < 2 * value self.now.words.now) }
        ensures { Stepped self.now.words.now t.new result (extended self.now.words.now t.old top + x * value b.now) }
    {
        let c = row(t, x, b);
        let m = low(accumulated(t[0], self.inverse, 0, 0));
        let d = row(t, m, self.words);
        let sum = accumulated(1, top, c, d);
        shift(t, low(sum));
        high(sum)
    }

    // Montgomery's product.
    fn multiply(&self, t: &mut [u32], a: &[u32], b: &[u32])
        requires { Operands t.old b.now self.now.words.now × (length a.now ≡ length self.now.words.now) }
        ensures { Product self.now.words.now t.new a.now b.now }
    {
        // a copy, whose fields are not read again after each write to t
        let n = *self;
        t.fill(0);
        let mut top: u32 = 0;
        for x in a {
            let next = n.step(t, top, *x, b);
            top = next;
        }
        n.reduce(t, top);
    }

    // Two squares: of x = R * u modulo n it makes R * u^4 modulo n. The words y are scratch.
    fn square_twice(&self, x: &mut [u32], y: &mut [u32])
        requires { Operands y.old x.old self.now.words.now }
        ensures { (value x.new < value self.now.words.now) × Fourth self.now.words.now (value x.old) (value x.new) }
    {
        self.multiply(y, x, x);
        self.multiply(x, y, y);
    }

    // R * R modulo n in x: 2^(32 * l - 16) is doubled to R * 2^(2 * l), l the length of n, which is squared four times.
    fn square_radix(&self, x: &mut [u32], y: &mut [u32])
        requires { Lifted x.old y.old self.now.words.now }
        ensures { value x.new ≡ radix self.now.words.now * radix self.now.words.now % value self.now.words.now }
    {
        high_bit(x);
        self.double_times(x, 2 * self.words.len() + 16);
        self.square_twice(x, y);
        self.square_twice(x, y);
    }

    // s^65537 modulo n in y: sixteen squares of R * s, and the product with s.
    pub(crate) fn raise(&self, y: &mut [u32], x: &mut [u32], s: &[u32])
        requires { Base y.old x.old s.now self.now.words.now }
        ensures { value y.new ≡ rsavp1 (value self.now.words.now) (value s.now) }
    {
        self.square_radix(y, x);
        self.multiply(x, y, s);
        for _k in 0..8usize {
            self.square_twice(x, y);
        }
        self.multiply(y, x, s);
    }
}
