// The encoded message: EMSA-PKCS1-v1_5, RFC 8017, section 9.2.
ghost use Rattle.std.specs.Prelude.{◌≡◌, reverse, ◌≤◌, length};
ghost use Rattle.rsa.specs.Inner.{encoded_digest};

// The DER encoding of DigestInfo for SHA-256 up to the digest (note 1).
const DIGEST_INFO: [u8; 19] = [
    0x30, 0x31, 0x30, 0x0d, 0x06, 0x09, 0x60, 0x86, 0x48, 0x01, 0x65, 0x03, 0x04, 0x02, 0x01, 0x05,
    0x00, 0x04, 0x20,
];

// How many bytes of the encoded message there are from the zero before T on, from T on, and in the digest, which ends it.
const FROM_ZERO: usize = 52;

const FROM_T: usize = 51;

const DIGEST: usize = 32;

// The encoded message, its last byte first.
pub(crate) fn encode(em: &mut [u8], digest: &[u8])
    requires { (length digest.now ≡ 32) × (54 ≤ length em.old) }
    ensures { em.new ≡ reverse (encoded_digest (length em.old) digest.now) }
{
    let k = em.len();
    em.fill(0xff);
    em[0] = 0;
    em[1] = 1;
    em[k - FROM_ZERO] = 0;
    em[k - FROM_T..k - DIGEST].copy_from_slice(&DIGEST_INFO);
    em[k - DIGEST..].copy_from_slice(digest);
    em.reverse();
}
