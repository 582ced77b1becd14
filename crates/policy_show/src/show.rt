// A policy file in lines: one for the file, each list, each element and each digest.
use policy_answers::{
    CUSTOM_TYPE, ElementAt, ElementBody, FileFault, LAUNCH_DIGESTS, LAUNCH_TYPE, ListAt, Part,
    STM_DIGESTS, STM_TYPE,
};
use std::{fmt, io};

// Bytes in hexadecimal, two digits each.
#[derive(Drop)]
struct Hex<'a>(&'a [u8]);

impl fmt::Display for Hex<'_> {
    fn fmt<W: fmt::Write>(&self, f: &mut fmt::Formatter<W>) -> fmt::Result {
        for b in self.0 {
            write!(f, "{b:02x}")?;
        }
        Ok(())
    }
}

// The digests of an element's body b, each of k bytes, from `start` on.
fn digests(rt: &impl Print, b: &[u8], start: usize, k: usize) -> io::Result<()> {
    if k == 0 {
        return Ok(());
    }
    let Some(digests) = b.get(start..) else {
        return Ok(());
    };
    for digest in digests.chunks_exact(k) {
        println!(rt; "digest {}", Hex(digest))?;
    }
    Ok(())
}

// The algorithm and the count of the digests in an element's body b, then the digests, which stand from `start` on.
fn named(rt: &impl Print, b: &[u8], start: usize, hash_alg: usize, count: usize) -> io::Result<()> {
    println!(rt; " hashalg=0x{hash_alg:04x} count={count}")?;
    digests(rt, b, start, policy_answers::digest_length(hash_alg))
}

// What an element is, and its type.
fn named_type(body: ElementBody) -> (&'static str, usize) {
    match body {
        ElementBody::Launch { .. } => ("launch", LAUNCH_TYPE),
        ElementBody::Stm { .. } => ("stm", STM_TYPE),
        ElementBody::Custom => ("custom", CUSTOM_TYPE),
        ElementBody::Unjudged { kind } => ("unjudged", kind),
    }
}

// The start of an element's line: what it is, where it stands, its type and its control.
#[derive(Drop)]
struct Head(ElementAt);

impl fmt::Display for Head {
    fn fmt<W: fmt::Write>(&self, f: &mut fmt::Formatter<W>) -> fmt::Result {
        let e = self.0;
        let (what, kind) = named_type(e.body);
        write!(
            f,
            "{what} start={} size={} type=0x{kind:08x} control=0x{:08x}",
            e.start, e.size, e.control
        )
    }
}

// The element e of s, which has the number j in the list number i.
fn element(rt: &impl Print, s: &[u8], i: usize, j: usize, e: ElementAt) -> io::Result<()> {
    print!(rt; "element {i} {j} {}", Head(e))?;
    let body = policy_answers::body(s, Some(e));
    match e.body {
        ElementBody::Launch {
            sinit_min_version,
            reserved,
            hash_alg,
            count,
        } => {
            print!(rt; " sinitminversion={sinit_min_version} reserved={reserved}")?;
            named(rt, body, LAUNCH_DIGESTS, hash_alg, count)
        }
        ElementBody::Stm { hash_alg, count } => named(rt, body, STM_DIGESTS, hash_alg, count),
        ElementBody::Custom => rt.println(""),
        ElementBody::Unjudged { .. } => rt.println(""),
    }
}

// The elements of the list number i, which fill s from `start` on.
fn elements_from(rt: &impl Print, s: &[u8], i: usize, start: usize) -> io::Result<()> {
    let mut at = start;
    // There are no more elements than bytes.
    for j in 0..s.len() {
        let Some(e) = policy_reader::element_at(s, at) else {
            break;
        };
        element(rt, s, i, j, e)?;
        at += e.size;
    }
    Ok(())
}

// The elements of the list number i, which are a part of s.
fn elements(rt: &impl Print, s: &[u8], i: usize, part: Part) -> io::Result<()> {
    let Some(end) = part.start.checked_add(part.len) else {
        return Ok(());
    };
    match s.get(..end) {
        Some(front) => elements_from(rt, front, i, part.start),
        None => Ok(()),
    }
}

// The list number i.
fn list(rt: &impl Print, i: usize, l: ListAt) -> io::Result<()> {
    let algorithm = if l.signing.is_some() { 0x0014 } else { 0x0010 };
    print!(rt;
        "list {i} start={} size={} version=0x{:04x} algorithm=0x{algorithm:04x} elements={}",
        l.start, l.size, l.version, l.elements_size
    )?;
    match l.signing {
        Some(g) => println!(rt;
            " counter={} keysize={} key={} signature={}",
            g.counter, g.key_size, g.key, g.signature
        ),
        None => rt.println(""),
    }
}

// The lists of s, so many, one after the other.
fn lists(rt: &impl Print, s: &[u8], count: usize) -> io::Result<()> {
    let mut at = policy_reader::FIRST_LIST;
    for i in 0..count {
        let Some(l) = policy_reader::list_at(s, at) else {
            return Ok(());
        };
        list(rt, i, l)?;
        elements(
            rt,
            s,
            i,
            Part {
                start: l.elements,
                len: l.elements_size,
            },
        )?;
        at += l.size;
    }
    Ok(())
}

// The file s.
pub(crate) fn file(rt: &impl Print, s: &[u8]) -> io::Result<()> {
    match policy_reader::read(s) {
        Ok(count) => {
            println!(rt; "accepted lists={count}")?;
            lists(rt, s, count)
        }
        Err(FileFault::WrongSize) => rt.println("refused 26"),
        Err(FileFault::NotOfGrammar { place }) => println!(rt; "refused 27 at {place}"),
    }
}
