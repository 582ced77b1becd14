// The writer of policy files: from a description the file, in a buffer that the caller lends, and the policy record with its PolicyHash.
//
// A description is numbers and bodies. The numbers are how many lists there are; of each list its version and how many elements it has; of each of its
// elements the type, the control and the length of its body. The bodies stand one behind the other.
#![tactic(auto)]

use decision::POLICY_HASH;
use policy_reader::LARGEST_FILE;
use rules::Refusal;

mod parts;
mod puts;

ghost use Rattle.std.specs.Prelude.{◌≡◌, ◌++◌, ◌≤◌, length, take};
ghost use Rattle.rules.specs.Refusal.{numbered};
ghost use Rattle.decision.specs.Lists.{hash_of, lists_of};
ghost use Rattle.policy_writer.specs.Decode.{described, file};
ghost use Rattle.policy_writer.specs.Inner.{next_of, Start};
ghost use Rattle.policy_writer.specs.Answers.{answer_for, buffer_for};

// What was written: the length of the file and the policy record.
#[derive(Clone, Copy)]
pub struct Written {
    pub length: usize,
    pub record: [u8; 70],
}

// Where a walk through a description stands: how many numbers and how many bytes of bodies are behind it, and how many bytes of the file.
#[derive(Clone, Copy)]
pub(crate) struct Cursor {
    pub(crate) numbers: usize,
    pub(crate) bodies: usize,
    pub(crate) bytes: usize,
}

// The policy record: its fields as they are asked for, and PolicyHash.
fn policy_record(fields: [u8; 38], hash: [u8; 32]) -> [u8; 70]
    ensures { result ≡ fields ++ hash }
{
    let mut record = [0u8; 70];
    puts::put_bytes(&mut record, 0, &fields);
    puts::put_bytes(&mut record, POLICY_HASH, &hash);
    record
}

// Where a walk through the whole description ends. It has an empty part of the buffer, so that nothing is written before the size of the file is known.
fn described_end(numbers: &[u32], bodies: &[u8], out: &mut [u8]) -> Option<Cursor>
    ensures next { result ≡ next_of file Start (described numbers.now bodies.now) }
    ensures kept { out.new ≡ out.old }
{
    let none: usize = 0;
    parts::file(numbers, bodies, &mut out[none..none])
}

// PolicyHash of the file at the front of a buffer.
fn hash_of(out: &[u8], size: usize) -> [u8; 32]
    requires { size ≤ length out.now }
    ensures { result ≡ hash_of (lists_of (take size out.now)) }
{
    let start: usize = 0;
    decision::policy_hash(&out[start..size])
}

// Writes the file that numbers and bodies describe to the front of `out`, whose other bytes stay, and gives its length and the policy record: `fields` and
// then the file's PolicyHash. 31 where they describe no file of unsigned lists with elements of types 0x10 and 3, 32 where it has over 65,536 bytes, 33
// where `out` has too little room; then `out` stays as it is.
pub fn write(
    numbers: &[u32],
    bodies: &[u8],
    fields: [u8; 38],
    out: &mut [u8],
) -> Result<Written, Refusal>
    ensures answer { numbered result ≡ answer_for fields out.old (described numbers.now bodies.now) }
    ensures buffer { out.new ≡ buffer_for out.old (described numbers.now bodies.now) }
{
    let Some(end) = described_end(numbers, bodies, out) else {
        return Err(Refusal::PolicyDescription);
    };
    let size = end.bytes;
    if LARGEST_FILE < size {
        return Err(Refusal::PolicySize);
    }
    if out.len() < size {
        return Err(Refusal::PolicyRoom);
    }
    parts::file(numbers, bodies, out);
    let hash = hash_of(out, size);
    Ok(Written {
        length: size,
        record: policy_record(fields, hash),
    })
}
