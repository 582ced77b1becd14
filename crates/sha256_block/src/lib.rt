// The hash computation of SHA-256 over whole blocks (FIPS 180-4, section 6.2.2).
#![tactic(auto)]

mod block;
mod constants;
mod word;

ghost use Rattle.std.specs.Prelude.{◌≡◌};
ghost use Rattle.sha256_block.specs.Block.{hash_blocks};

// The hash value after the whole blocks of s, from the hash value h on. It alone calls `compress`, which is then compiled into its
// loop.
pub fn hash_blocks(h: [u32; 8], s: &[u8]) -> [u32; 8]
    ensures { result ≡ hash_blocks h s.now }
{
    let mut words = h;
    for block in s.as_chunks::<64>().0 {
        let next = block::compress(words, block);
        words = next;
    }
    words
}
