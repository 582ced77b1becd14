// What a signed list needs besides its elements: a counter that is at least the record's, and a signature that verifies.
ghost use Rattle.std.specs.Prelude.{◌≡◌, Some};
ghost use Rattle.policy_answers.specs.Seen.{seen_list};
ghost use Rattle.policy_record.specs.Record.{revocation_counter};
ghost use Rattle.decision.specs.Lists.{without_last};
ghost use Rattle.decision.specs.Inner.{reached_seen, verified_seen};

use policy_answers::ListAt;

// Whether the counter of the list number i is at least the record's, where the list is signed.
pub(crate) fn counter_reached(record: &[u8], l: ListAt, i: u32) -> bool
    ensures { result ≡ reached_seen (revocation_counter «record».now i) l.signing }
{
    let Some(signing) = l.signing else {
        return true;
    };
    policy_record::revocation_counter(record, i) <= signing.counter as u64
}

// The bytes but for the last n of them.
fn without_last(b: &[u8], n: usize) -> &[u8]
    ensures { result.now ≡ without_last n b.now }
{
    if b.len() < n {
        return &b[..0];
    }
    &b[..b.len() - n]
}

// Whether the signature of a list verifies, where the list is signed: over its bytes up to, but without, the signature, which ends it.
pub(crate) fn signature_verifies(file: &[u8], l: ListAt) -> bool
    ensures { result ≡ verified_seen (seen_list file.now (Some l)) }
{
    let Some(signing) = l.signing else {
        return true;
    };
    let list = policy_answers::part_at(file, l.start, l.size);
    let signature = policy_answers::part_at(file, signing.signature, signing.key_size);
    let signed = without_last(list, signature.len());
    rsa::verify(
        policy_answers::part_at(file, signing.key, signing.key_size),
        signature,
        signed,
    )
}
