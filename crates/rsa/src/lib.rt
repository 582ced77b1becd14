// RSASSA-PKCS1-v1_5 verification (RFC 8017, section 8.2.2) with the exponent 65537 and SHA-256, for keys of 256 and 384 bytes.
#![tactic(auto)]

mod message;
mod montgomery;
mod words;

ghost use Rattle.std.specs.Prelude.{◌≡◌, ◌*◌, ◌≤◌, length};
ghost use Rattle.sha256.specs.Message.{sha256};
ghost use Rattle.rsa.specs.Words.{value, power};
ghost use Rattle.rsa.specs.Rsa.{os2ip, verifies};
ghost use Rattle.rsa.specs.Inner.{little_endian, encoded_digest, matches, Room};

// The sizes of a key, in bytes and in words.
const KEY_2048: usize = 256;

const WORDS_2048: usize = 64;

const KEY_3072: usize = 384;

const WORDS_3072: usize = 96;

// Whether n is odd, s is below n, and s^65537 modulo n is m. No remainder is m where m is not below n. An encoded message m is at least
// 2^(32 * l - 16), l the length in words, and so is an n above it, which `raise` asks for. The words x and y are scratch.
fn matching(n: &[u32], s: &[u32], m: &[u32], x: &mut [u32], y: &mut [u32]) -> bool
    requires room { Room (length n.now) (length s.now) (length m.now) (length x.old) (length y.old) }
    requires large { power (length n.now) ≤ 65536 * value m.now }
    ensures { result ≡ matches (value n.now) (value s.now) (value m.now) }
{
    if n[0] % 2 == 0 {
        return false;
    }
    if !words::less(s, n) {
        return false;
    }
    if !words::less(m, n) {
        return false;
    }
    montgomery::Modulus::new(n).raise(y, x, s);
    words::same(y, m)
}

// Whether the signature verifies, for a key of K bytes, which are L words.
fn checked<const K: usize, const L: usize>(key: &[u8], signature: &[u8], message: &[u8]) -> bool
    requires size { (K ≡ 4 * L) × (54 ≤ K) }
    requires key_length { length key.now ≡ K }
    requires signature_length { length signature.now ≡ K }
    ensures { result ≡ matches (little_endian key.now) (little_endian signature.now) (os2ip (encoded_digest K (sha256 message.now))) }
{
    let digest = sha256::digest(message);
    let mut em = [0u8; K];
    message::encode(&mut em, &digest);
    let mut n = [0u32; L];
    words::load(&mut n, key);
    let mut s = [0u32; L];
    words::load(&mut s, signature);
    let mut m = [0u32; L];
    words::load(&mut m, &em);
    let mut x = [0u32; L];
    let mut y = [0u32; L];
    matching(&n, &s, &m, &mut x, &mut y)
}

// Whether a signature of a message verifies with a key. The key is the bytes of its modulus, the lowest first, as are the signature's.
pub fn verify(key: &[u8], signature: &[u8], message: &[u8]) -> bool
    ensures { result ≡ verifies key.now signature.now message.now }
{
    if signature.len() != key.len() {
        return false;
    }
    match key.len() {
        KEY_2048 => checked::<KEY_2048, WORDS_2048>(key, signature, message),
        KEY_3072 => checked::<KEY_3072, WORDS_3072>(key, signature, message),
        _ => false,
    }
}
