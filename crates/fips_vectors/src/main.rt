// Prints SHA-256 digests, one a line: of the example messages of FIPS 180-4 and the empty message, of the first 0 to 200
// bytes of a pattern, and of the whole pattern, absorbed in parts of several sizes.
#![tactic(auto)]

ghost use Rattle.std.specs.Prelude.{◌≡◌, ◌+◌, ◌%◌, ◌<◌, ◌≤◌, length};
ghost use Rattle.fips_vectors.specs.Digits.{hex_digit_ascii};
ghost use Rattle.fips_vectors.specs.Line.{line_of};

use std::io;

// The hexadecimal digit of the low half of a byte. `{:x}` would do, but no contract says what it writes, and `line` promises each byte.
#[tactic(auto, using(std::proofs::lemmas::Bool::Decides::nat_tests))]
fn digit(b: u8) -> u8
    ensures { result ≡ hex_digit_ascii (b % 16) }
{
    let x = b % 16;
    if x < 10 { b'0' + x } else { b'a' + (x - 10) }
}

// A digest as a line of text: its bytes in hexadecimal, and the line feed.
fn line(digest: [u8; 32]) -> [u8; 65]
    ensures { result ≡ line_of digest }
{
    let mut text = [0u8; 65];
    for (i, byte) in digest.iter().enumerate() {
        text[2 * i] = digit(*byte / 16);
        text[2 * i + 1] = digit(*byte);
    }
    text[64] = b'\n';
    text
}

fn print(rt: &impl Print, digest: [u8; 32]) -> io::Result<()> {
    rt.write_all(&line(digest))
}

fn print_digest(rt: &impl Print, m: &[u8]) -> io::Result<()> {
    print(rt, sha256::digest(m))
}

// The digest of one million times the letter a, in a thousand parts.
fn million() -> [u8; 32] {
    let part = [b'a'; 1000];
    let mut s = sha256::start();
    for _ in 0..1000 {
        let next = sha256::absorb(s, &part);
        s = next;
    }
    sha256::finish(s)
}

fn print_examples(rt: &impl Print) -> io::Result<()> {
    print_digest(rt, b"abc")?;
    print_digest(
        rt,
        b"abcdbcdecdefdefgefghfghighijhijkijkljklmklmnlmnomnopnopq",
    )?;
    print_digest(
        rt,
        b"abcdefghbcdefghicdefghijdefghijkefghijklfghijklmghijklmnhijklmnoijklmnopjklmnopqklmnopqrlmnopqrsmnopqrstnopqrstu",
    )?;
    print(rt, million())?;
    print_digest(rt, b"")
}

// The pattern: byte i is 7 * i + 3 modulo 256. It is as long as parts of 0, 1, 2, .., 199 bytes together.
fn pattern() -> [u8; 19900] {
    std::array::from_fn(
        |i: usize| -> u8
            requires { i < 19900 }
        { ((7 * i + 3) % 256) as u8 },
    )
}

// The digests of the first 0, 1, 2, .., 200 bytes of m.
fn print_lengths(rt: &impl Print, m: &[u8]) -> io::Result<()>
    requires { 200 ≤ length m.now }
{
    for n in 0..=200 {
        print_digest(rt, &m[..n])?;
    }
    Ok(())
}

// The digest of m, absorbed in parts of first, first + more, first + 2 * more, .. bytes, of which the last may be shorter. The parts grow, so that
// `chunks` does not cut them.
fn in_parts(m: &[u8], first: usize, more: usize) -> [u8; 32]
    requires more_nonzero { 0 < first + more }
    requires more_bound { more ≤ 1 }
{
    let mut s = sha256::start();
    let mut size = first;
    let mut rest = m;
    while size < rest.len() {
        let (part, behind) = rest.split_at(size);
        let next = sha256::absorb(s, part);
        s = next;
        rest = behind;
        size += more;
    }
    sha256::finish(sha256::absorb(s, rest))
}

// The whole of m in five ways, which print the same line: in parts of 0, 1, 2, .. bytes, in one part, and in parts of 64, 63
// and 65 bytes.
fn print_parts(rt: &impl Print, m: &[u8]) -> io::Result<()> {
    print(rt, in_parts(m, 0, 1))?;
    print_digest(rt, m)?;
    print(rt, in_parts(m, 64, 0))?;
    print(rt, in_parts(m, 63, 0))?;
    print(rt, in_parts(m, 65, 0))
}

fn main(rt: HostRuntime) -> io::Result<()> {
    print_examples(&rt)?;
    let m = pattern();
    print_lengths(&rt, &m)?;
    print_parts(&rt, &m)
}
