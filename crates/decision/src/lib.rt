// What the policy file decides: where it stands in the window, its hash and whether it is right (26 to 28), and the lowest list that permits (29).
#![tactic(auto)]

mod elements;
mod measures;
mod permits;
mod place;
mod signing;

pub use measures::{POLICY_HASH, judge_file, policy_hash};
pub use permits::lowest_permitting;
pub use place::{file, file_placed};

// What a list is judged by: the digest of the pages, AcmVersion of the module, the STM image and the policy record.
#[derive(Clone, Copy)]
pub struct LaunchCriteria<'a> {
    pub digest: [u8; 32],
    pub acm_version: u64,
    pub stm: &'a [u8],
    pub policy_record: &'a [u8],
}

// What the elements of a list say: it does not permit, it does, or it does where one of its STM elements names the image.
#[derive(Clone, Copy, PartialEq, Eq)]
pub enum Judgement {
    No,
    Yes,
    IfStmNamed,
}
