// The hash of the measures of a file's lists, and rules 27 and 28.
ghost use Rattle.std.specs.Prelude.{◌≡◌, true};
ghost use Rattle.policy_answers.specs.Seen.{seen_list};
ghost use Rattle.decision.specs.Lists.{of_grammar, lists_of, hash_of, hash_matches};
ghost use Rattle.decision.specs.Answers.{file_fault_of, fault_shown};
ghost use Rattle.decision.specs.Inner.{measured_seen};

use policy_answers::{FileFault, ListAt};
use policy_reader::FIRST_LIST;
use rules::{Refusal, require};

// The offset of PolicyHash in a record.
pub const POLICY_HASH: usize = 38;

// What is measured for a list: its bytes, or its key if it is signed.
fn measured(file: &[u8], l: Option<ListAt>) -> &[u8]
    ensures { result.now ≡ measured_seen (seen_list file.now l) }
{
    let Some(l) = l else {
        return &file[..0];
    };
    match l.signing {
        Some(signing) => policy_answers::part_at(file, signing.key, signing.key_size),
        None => policy_answers::part_at(file, l.start, l.size),
    }
}

// The digest of the measures joined. The walk goes on by each list's own size.
fn hash(file: &[u8]) -> [u8; 32]
    requires { of_grammar file.now ≡ true }
    ensures { result ≡ hash_of (lists_of file.now) }
{
    let mut state = sha256::start();
    let mut at = FIRST_LIST;
    while at < file.len() {
        let l = policy_reader::list_at(file, at);
        let measure = sha256::digest(measured(file, l));
        state = sha256::absorb(state, &measure);
        at += policy_answers::list_size(l);
    }
    sha256::finish(state)
}

// The hash that the record of a file must have. A string that is not of the grammar has no lists, and its hash is the digest of no bytes.
pub fn policy_hash(file: &[u8]) -> [u8; 32]
    ensures { result ≡ hash_of (lists_of file.now) }
{
    match policy_reader::read(file) {
        Ok(_) => hash(file),
        Err(_) => sha256::digest(&file[..0]),
    }
}

// Whether the record has the hash of the file.
fn hash_matches(file: &[u8], record: &[u8]) -> bool
    requires { of_grammar file.now ≡ true }
    ensures { result ≡ hash_matches file.now «record».now }
{
    let h = hash(file);
    field::marked(record, POLICY_HASH, &h)
}

// Rules 27 and 28, for a file and the record. A file of a size that is not read, which 26 keeps away, is not of the grammar, at 0.
pub fn judge_file(file: &[u8], record: &[u8]) -> Result<(), Refusal>
    ensures { fault_shown result ≡ file_fault_of file.now «record».now }
{
    match policy_reader::read(file) {
        Ok(_) => require(hash_matches(file, record), Refusal::PolicyHash),
        Err(FileFault::WrongSize) => Err(Refusal::PolicyGrammar { place: 0 }),
        Err(FileFault::NotOfGrammar { place }) => Err(Refusal::PolicyGrammar {
            place: place as u32,
        }),
    }
}
