// Words of 32 bits: FIPS 180-4, sections 3.1, 3.2 and 4.1.2.
ghost use Rattle.std.specs.Prelude.{◌≡◌};
ghost use Rattle.sha256_block.specs.Words.{Ch, Maj, Σ₀, Σ₁, σ₀, σ₁};

// `Ch` with three operations: x chooses between y and z.
#[tactic(auto, using(crate::proofs::Bitwise::choice))]
pub(crate) fn ch(x: u32, y: u32, z: u32) -> u32
    ensures { result ≡ Ch x y z }
{
    z ^ (x & (y ^ z))
}

// `Maj` with four operations, of which the next round needs one again: its y and z are x and y of this one.
#[tactic(auto, using(crate::proofs::Bitwise::majority))]
pub(crate) fn maj(x: u32, y: u32, z: u32) -> u32
    ensures { result ≡ Maj x y z }
{
    y ^ ((x ^ y) & (y ^ z))
}

// The functions that FIPS 180-4 writes with a capital sigma, and with a small one. Each has the name and the three numbers that section 4.1.2 gives it;
// one function over the numbers would say at each call which numbers, and no longer which function.
pub(crate) fn big_sigma0(x: u32) -> u32
    ensures { result ≡ Σ₀ x }
{
    x.rotate_right(2) ^ x.rotate_right(13) ^ x.rotate_right(22)
}

pub(crate) fn big_sigma1(x: u32) -> u32
    ensures { result ≡ Σ₁ x }
{
    x.rotate_right(6) ^ x.rotate_right(11) ^ x.rotate_right(25)
}

pub(crate) fn small_sigma0(x: u32) -> u32
    ensures { result ≡ σ₀ x }
{
    x.rotate_right(7) ^ x.rotate_right(18) ^ (x >> 3)
}

pub(crate) fn small_sigma1(x: u32) -> u32
    ensures { result ≡ σ₁ x }
{
    x.rotate_right(17) ^ x.rotate_right(19) ^ (x >> 10)
}
