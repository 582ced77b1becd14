// Which list of a file permits: rule 29.
ghost use Rattle.std.specs.Prelude.{◌≡◌, true, ◌&&◌, List, ℕ, Some};
ghost use Rattle.sha256.specs.Message.{sha256};
ghost use Rattle.policy_grammar.specs.Grammar.{Element, PolicyList};
ghost use Rattle.policy_answers.specs.Seen.{seen_list};
ghost use Rattle.decision.specs.Lists.{of_grammar, elements_permit, permits, lowest_permitting};
ghost use Rattle.decision.specs.Answers.{criteria_of, number_if};
ghost use Rattle.decision.specs.Inner.{verified_seen, ElementsStand, ListStands};

use crate::elements::{elements_judged, stm_named};
use crate::signing::{counter_reached, signature_verifies};
use crate::{Judgement, LaunchCriteria};
use policy_answers::ListAt;
use policy_reader::FIRST_LIST;

// The lists of a file, and what they are judged by. The digest of the STM image is worked out at most once, and only for a list that could permit.
#[derive(Drop)]
pub(crate) struct FileLists<'a> {
    file: &'a [u8],
    criteria: LaunchCriteria<'a>,
    stm_digest: Option<[u8; 32]>,
    ghost known: { (d : List ℕ) → stm_digest ≡ Some d → d ≡ sha256 criteria.stm.now },
}

impl<'a> FileLists<'a> {
    // The digest of the STM image, which is known afterwards.
    fn stm_digest(&mut self) -> [u8; 32]
        ensures digest { result ≡ sha256 self.old.criteria.stm.now }
        ensures kept { self.new.stm_digest ≡ Some result }
        ensures file { self.new.file ≡ self.old.file }
        ensures criteria { self.new.criteria ≡ self.old.criteria }
    {
        if let Some(digest) = self.stm_digest {
            return digest;
        }
        let digest = sha256::digest(self.criteria.stm);
        self.stm_digest = Some(digest);
        digest
    }

    // Whether the elements of t from `start` on permit, and the signature of their list verifies if it is signed. What takes longer is looked at later:
    // the signature where the elements permit but for their STM elements, and the STM image, which is hashed then, where the signature verifies.
    fn elements_and_signature(&mut self, l: ListAt, t: &[u8], start: usize) -> bool
        requires { (es : List Element) × ElementsStand t.now start es }
        ensures permits { (es : List Element) → ElementsStand t.now start es → result ≡ (elements_permit (criteria_of self.old.criteria) es && verified_seen (seen_list self.old.file.now (Some l))) }
        ensures file { self.new.file ≡ self.old.file }
        ensures criteria { self.new.criteria ≡ self.old.criteria }
    {
        match elements_judged(t, start, &self.criteria) {
            Judgement::No => false,
            Judgement::Yes => signature_verifies(self.file, l),
            Judgement::IfStmNamed => {
                if self.criteria.stm.len() == 0 {
                    return false;
                }
                if !signature_verifies(self.file, l) {
                    return false;
                }
                let digest = self.stm_digest();
                stm_named(t, start, &digest)
            }
        }
    }

    // Whether the list l, which has the number i, permits.
    fn permits(&mut self, l: ListAt, i: u32) -> bool
        requires { (x : PolicyList) × ListStands self.old.file.now (Some l) x }
        ensures permits { (x : PolicyList) → ListStands self.old.file.now (Some l) x → result ≡ permits (criteria_of self.old.criteria) i x }
        ensures file { self.new.file ≡ self.old.file }
        ensures criteria { self.new.criteria ≡ self.old.criteria }
    {
        if !counter_reached(self.criteria.policy_record, l, i) {
            return false;
        }
        let file = self.file;
        let end = l.elements + l.elements_size;
        self.elements_and_signature(l, &file[..end], l.elements)
    }
}

// The number of the lowest list of a file of the grammar that permits, none where none does. The walk goes on by each list's own size.
fn lowest_in(file: &[u8], k: &LaunchCriteria) -> Option<u32>
    requires { of_grammar file.now ≡ true }
    ensures { result ≡ number_if (lowest_permitting file.now (criteria_of k.now)) }
{
    let mut lists = FileLists {
        file,
        criteria: *k,
        stm_digest: None,
    };
    let mut at = FIRST_LIST;
    let mut i: u32 = 0;
    while at < file.len() {
        let l = policy_reader::list_at(file, at)?;
        if lists.permits(l, i) {
            return Some(i);
        }
        at += l.size;
        i += 1;
    }
    None
}

// The number of the lowest list that permits; none where none does, as in a file that is not of the grammar.
pub fn lowest_permitting(file: &[u8], k: &LaunchCriteria) -> Option<u32>
    ensures { result ≡ number_if (lowest_permitting file.now (criteria_of k.now)) }
{
    match policy_reader::read(file) {
        Ok(_) => lowest_in(file, k),
        Err(_) => None,
    }
}
