// The policy record: rules 23 to 25, the kind of policy, and the revocation counters.
#![tactic(auto)]

ghost use Rattle.std.specs.Prelude.{◌≡◌};
ghost use Rattle.rules.specs.Rules.{all, first_failing};
ghost use Rattle.rules.specs.Refusal.{numbered, failing};
ghost use Rattle.policy_record.specs.Record.{policy_type, revocation_counter, lcp_hash_alg_mask, sha256_bit, bit, record_tests, worthy_or_allowed, version_reached, record_rules};
ghost use Rattle.policy_record.specs.Answers.{record_of};

use field::number_or_zero;
use rules::{Refusal, require};

// The kind of policy of a record.
#[derive(Clone, Copy, PartialEq, Eq)]
pub enum PolicyType {
    List,
    Any,
}

// HashAlg of SHA-256.
pub const SHA256_ALG: u64 = 0x000B;

const RECORD_SIZE: usize = 70;

// The offset of the first of the counters.
const REVOCATION_COUNTERS: usize = 6;

const KNOWN_VERSION: u64 = 3;

// The bit for SHA-256 in LcpHashAlgMask, 0x0008.
const SHA256_BIT: u64 = 3;

// The types of PolicyType, as the record and `record_of` have them; `PolicyType` is what a record that holds answers.
const LIST: u64 = 0;

const ANY: u64 = 1;

fn policy_type(record: &[u8]) -> u64
    ensures { result ≡ policy_type «record».now }
{
    number_or_zero(record, 4, 1)
}

// LcpHashAlgMask has the bit for SHA-256.
fn mask_has_sha256(record: &[u8]) -> bool
    ensures { result ≡ bit sha256_bit (lcp_hash_alg_mask «record».now) }
{
    (number_or_zero(record, 28, 2) >> SHA256_BIT) & 1 == 1
}

// Rule 23: size, version, algorithm, the mask of hash algorithms and type.
fn record_holds(record: &[u8]) -> bool
    ensures { result ≡ all (record_tests «record».now) }
{
    if record.len() != RECORD_SIZE {
        return false;
    }
    if number_or_zero(record, 0, 2) >> 8 != KNOWN_VERSION {
        return false;
    }
    if number_or_zero(record, 2, 2) != SHA256_ALG {
        return false;
    }
    if !mask_has_sha256(record) {
        return false;
    }
    let type_ = policy_type(record);
    if type_ == LIST {
        return true;
    }
    type_ == ANY
}

// Rule 24: the module is production worthy, or bit 1 of control allows one with flag 14 or 15.
fn worthy_or_allowed(flags: u64, record: &[u8]) -> bool
    ensures { result ≡ worthy_or_allowed flags «record».now }
{
    if (flags >> 14) & 3 == 0 {
        return true;
    }
    (number_or_zero(record, 22, 4) >> 1) & 1 == 1
}

// Rule 25: AcmVersion is at least the record's SINITMinVersion.
fn version_reached(acm_version: u64, record: &[u8]) -> bool
    ensures { result ≡ version_reached acm_version «record».now }
{
    number_or_zero(record, 5, 1) <= acm_version
}

// Rules 23 to 25, in this order.
fn judge(record: &[u8], flags: u64, acm_version: u64) -> Result<(), Refusal>
    ensures { failing result ≡ first_failing (record_rules «record».now flags acm_version) }
{
    require(record_holds(record), Refusal::PolicyRecord)?;
    require(worthy_or_allowed(flags, record), Refusal::NotProduction)?;
    require(version_reached(acm_version, record), Refusal::ModuleVersion)
}

// The kind of policy of a record, for the flags of a module and its AcmVersion, or the first of rules 23 to 25 that fails.
pub fn kind(record: &[u8], flags: u64, acm_version: u64) -> Result<PolicyType, Refusal>
    ensures { numbered result ≡ record_of «record».now flags acm_version }
{
    judge(record, flags, acm_version)?;
    if policy_type(record) == LIST {
        return Ok(PolicyType::List);
    }
    Ok(PolicyType::Any)
}

// The revocation counter of the list number i.
pub fn revocation_counter(record: &[u8], i: u32) -> u64
    ensures { result ≡ revocation_counter «record».now i }
{
    number_or_zero(record, REVOCATION_COUNTERS + 2 * i as usize, 2)
}
