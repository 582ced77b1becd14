// The hash value after one block: FIPS 180-4, section 6.2.2. Of the message schedule sixteen words are held, and each new one takes
// the place of one that is used up.
ghost use Rattle.std.specs.Prelude.{◌≡◌, ◌+◌, ◌*◌, ◌<◌, ◌≤◌, length, take, drop};
ghost use Rattle.sha256_block.specs.Words.{◌⊞◌, σ₀, σ₁};
ghost use Rattle.sha256_block.specs.Block as fips;
ghost use Rattle.sha256_block.specs.Block.{word_of, words_of, round_of, rounds, sum_of};
ghost use Rattle.sha256_block.specs.Schedule.{held, compress_held};

use crate::constants::constants;
use crate::word::{big_sigma0, big_sigma1, ch, maj, small_sigma0, small_sigma1};

// The eight working variables.
#[derive(Clone, Copy)]
pub struct Working {
    pub a: u32,
    pub b: u32,
    pub c: u32,
    pub d: u32,
    pub e: u32,
    pub f: u32,
    pub g: u32,
    pub h: u32,
}

#[tactic(auto, using(crate::proofs::Sums::wraps), unfolding(crate::specs::Block::round_of))]
fn round(s: Working, k: u32, w: u32) -> Working
    ensures { result ≡ round_of s k w }
{
    let t1 = s
        .h
        .wrapping_add(big_sigma1(s.e))
        .wrapping_add(ch(s.e, s.f, s.g))
        .wrapping_add(k)
        .wrapping_add(w);
    let t2 = big_sigma0(s.a).wrapping_add(maj(s.a, s.b, s.c));
    Working {
        a: t1.wrapping_add(t2),
        b: s.a,
        c: s.b,
        d: s.c,
        e: s.d.wrapping_add(t1),
        f: s.e,
        g: s.f,
        h: s.g,
    }
}

// Sixteen rounds, with their constants and words. Written out, since a loop over them makes the digest take 1.23 times as long.
#[tactic(auto, unfolding(crate::specs::Block::rounds))]
fn sixteen_rounds(s: Working, k: &[u32; 16], w: &[u32; 16]) -> Working
    ensures { result ≡ rounds 16 s k.now w.now }
{
    let s1 = round(s, k[0], w[0]);
    let s2 = round(s1, k[1], w[1]);
    let s3 = round(s2, k[2], w[2]);
    let s4 = round(s3, k[3], w[3]);
    let s5 = round(s4, k[4], w[4]);
    let s6 = round(s5, k[5], w[5]);
    let s7 = round(s6, k[6], w[6]);
    let s8 = round(s7, k[7], w[7]);
    let s9 = round(s8, k[8], w[8]);
    let s10 = round(s9, k[9], w[9]);
    let s11 = round(s10, k[10], w[10]);
    let s12 = round(s11, k[11], w[11]);
    let s13 = round(s12, k[12], w[12]);
    let s14 = round(s13, k[13], w[13]);
    let s15 = round(s14, k[14], w[14]);
    round(s15, k[15], w[15])
}

// The word that comes 2, 7, 15 and 16 places after these.
#[tactic(auto, using(crate::proofs::Sums::wraps))]
fn extended(w2: u32, w7: u32, w15: u32, w16: u32) -> u32
    ensures { result ≡ σ₁ w2 ⊞ w7 ⊞ σ₀ w15 ⊞ w16 }
{
    small_sigma1(w2)
        .wrapping_add(w7)
        .wrapping_add(small_sigma0(w15))
        .wrapping_add(w16)
}

// The sixteen words that come behind sixteen. Each takes the place of the one that is sixteen before it, which is used up. Written out
// for the same reason as the rounds.
fn next_words(w: &mut [u32; 16])
    ensures { w.new ≡ held 16 w.old }
{
    w[0] = extended(w[14], w[9], w[1], w[0]);
    w[1] = extended(w[15], w[10], w[2], w[1]);
    w[2] = extended(w[0], w[11], w[3], w[2]);
    w[3] = extended(w[1], w[12], w[4], w[3]);
    w[4] = extended(w[2], w[13], w[5], w[4]);
    w[5] = extended(w[3], w[14], w[6], w[5]);
    w[6] = extended(w[4], w[15], w[7], w[6]);
    w[7] = extended(w[5], w[0], w[8], w[7]);
    w[8] = extended(w[6], w[1], w[9], w[8]);
    w[9] = extended(w[7], w[2], w[10], w[9]);
    w[10] = extended(w[8], w[3], w[11], w[10]);
    w[11] = extended(w[9], w[4], w[12], w[11]);
    w[12] = extended(w[10], w[5], w[13], w[12]);
    w[13] = extended(w[11], w[6], w[14], w[13]);
    w[14] = extended(w[12], w[7], w[15], w[14]);
    w[15] = extended(w[13], w[8], w[0], w[15]);
}

fn variables(words: [u32; 8]) -> Working
    ensures { result ≡ fips.variables words }
{
    let [a, b, c, d, e, f, g, h] = words;
    Working {
        a,
        b,
        c,
        d,
        e,
        f,
        g,
        h,
    }
}

#[tactic(auto, using(crate::proofs::Sums::wraps))]
fn sum(s: Working, h: [u32; 8]) -> [u32; 8]
    ensures { result ≡ sum_of s h }
{
    [
        s.a.wrapping_add(h[0]),
        s.b.wrapping_add(h[1]),
        s.c.wrapping_add(h[2]),
        s.d.wrapping_add(h[3]),
        s.e.wrapping_add(h[4]),
        s.f.wrapping_add(h[5]),
        s.g.wrapping_add(h[6]),
        s.h.wrapping_add(h[7]),
    ]
}

// The word at a place.
fn word_at(s: &[u8], i: usize) -> u32
    requires { i + 4 ≤ length s.now }
    ensures { result ≡ word_of (drop i s.now) }
{
    u32::from_be_bytes([s[i], s[i + 1], s[i + 2], s[i + 3]])
}

// The words of a block.
fn load(block: &[u8; 64]) -> [u32; 16]
    ensures { result ≡ words_of 16 block.now }
{
    let mut words = [0u32; 16];
    for i in 0..16 {
        words[i] = word_at(block, 4 * i);
    }
    words
}

// The group of the last sixteen rounds.
const LAST: usize = 3;

// The hash value after a block. Before each group of sixteen rounds, w holds their words.
pub(crate) fn compress(h: [u32; 8], block: &[u8; 64]) -> [u32; 8]
    ensures { result ≡ compress_held h block.now }
{
    let mut x = variables(h);
    let mut w = load(block);
    for group in 0..4 {
        x = sixteen_rounds(x, constants(group), &w);
        if group < LAST {
            next_words(&mut w);
        }
    }
    sum(x, h)
}
