// SHA-256 (FIPS 180-4): of a slice, or of a message that comes in parts.
#![tactic(auto)]

ghost use Rattle.std.specs.Prelude.{◌≡◌, ◌%◌, ◌≤◌, ◌++◌, length, take, replicate};
ghost use Rattle.sha256_block.specs.Block.{hash_blocks};
ghost use Rattle.sha256.specs.Message.{padding, digest_of, sha256};
ghost use Rattle.sha256.specs.State.{started, Absorbed, finish_of};

use sha256_block::hash_blocks;

// The initial hash value, as FIPS 180-4, 5.3.3, prints it.
const H0: [u32; 8] = [
    0x6a09e667, 0xbb67ae85, 0x3c6ef372, 0xa54ff53a, 0x510e527f, 0x9b05688c, 0x1f83d9ab, 0x5be0cd19,
];

// A digest of which a part was worked out. Every value is a state.
#[derive(Clone, Copy)]
pub struct Running {
    pub words: [u32; 8],
    // The bytes that wait stand at its front, as many as `total` says modulo 64; a Vec of them would need a heap.
    pub block: [u8; 64],
    // The message's length so far in bytes, modulo 2^64.
    pub total: u64,
}

// The state of the empty message.
pub fn start() -> Running
    ensures { result ≡ started }
{
    Running {
        words: H0,
        block: [0u8; 64],
        total: 0,
    }
}

// The state after one part more of the message. The block is filled in place; once it is full it is hashed, and then holds the rest
// of the part.
#[tactic(auto, using(crate::proofs::Hashing::kept))]
pub fn absorb(s: Running, part: &[u8]) -> Running
    ensures { Absorbed s part.now result }
{
    let fill = (s.total % 64) as usize;
    let total = s.total.wrapping_add(part.len() as u64);
    let room = 64 - fill;
    let mut block = s.block;
    if part.len() < room {
        block[fill..fill + part.len()].copy_from_slice(part);
        return Running { block, total, ..s };
    }
    let (front, behind) = part.split_at(room);
    block[fill..].copy_from_slice(front);
    let first = hash_blocks(s.words, &block);
    let words = hash_blocks(first, behind);
    let rest = behind.as_chunks::<64>().1;
    block[..rest.len()].copy_from_slice(rest);
    Running {
        words,
        block,
        total,
    }
}

// The bytes behind the whole blocks of a message of `total` bytes, and its padding, in the front of 128 zeros.
fn padded<'a>(p: &'a mut [u8; 128], rest: &[u8], total: u64) -> &'a [u8]
    requires zeros { p.old ≡ replicate 128 0 }
    requires waits { length rest.now ≡ total % 64 }
    ensures { result.now ≡ rest.now ++ padding total }
{
    let fill = rest.len();
    let at = fill + 1 + (119 - fill) % 64;
    p[..fill].copy_from_slice(rest);
    p[fill] = 0x80;
    p[at..at + 8].copy_from_slice(&(total << 3).to_be_bytes());
    &p[..at + 8]
}

// The bytes of the hash value.
fn digest_bytes(h: [u32; 8]) -> [u8; 32]
    ensures { result ≡ digest_of h }
{
    let mut d = [0u8; 32];
    for (i, word) in h.iter().enumerate() {
        d[4 * i..4 * i + 4].copy_from_slice(&word.to_be_bytes());
    }
    d
}

// The digest of a message of `total` bytes, from the hash value after its whole blocks and the bytes behind them.
fn digest_from(words: [u32; 8], rest: &[u8], total: u64) -> [u8; 32]
    requires { length rest.now ≡ total % 64 }
    ensures { result ≡ digest_of (hash_blocks words (rest.now ++ padding total)) }
{
    let mut p = [0u8; 128];
    digest_bytes(hash_blocks(words, padded(&mut p, rest, total)))
}

// The digest of the message that a state has absorbed.
#[tactic(auto, unfolding(crate::specs::State::finish_of))]
pub fn finish(s: Running) -> [u8; 32]
    ensures { result ≡ finish_of s }
{
    let fill = (s.total % 64) as usize;
    digest_from(s.words, &s.block[..fill], s.total)
}

// The digest of a message in one slice.
#[tactic(auto, using(crate::proofs::Parts::digest_parts))]
pub fn digest(m: &[u8]) -> [u8; 32]
    ensures { result ≡ sha256 m.now }
{
    let rest = m.as_chunks::<64>().1;
    digest_from(hash_blocks(H0, m), rest, m.len() as u64)
}
