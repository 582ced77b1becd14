// The check: whether the next launch will succeed, as one number, and on permission the pages of the MLE and their digest.
//
// Two stages in turn: what the launch finds (rules 1 to 22), and what the policy decides (rules 23 to 29). The first rule that fails gives the
// number. Only the last step writes the page list.
#![tactic(auto)]

mod decide;
mod find;

ghost use Rattle.std.specs.Prelude.{◌≡◌, length};
ghost use Rattle.launch.specs.Rules.{input_of};
ghost use Rattle.launch.specs.Answer.{answer_of, places_of, measurement_of};
ghost use Rattle.launch.specs.Inner.{input, outcome_of, outcome_shown, permitted_shown};
ghost use Rattle.launch.specs.Refused.{early};

use answer::{Answer, NO_LIST};
use decide::decide;
use find::find;
use mle::Image;
use range::Range;
use rules::Refusal;

// The most ranges that a platform reserves.
pub const MOST_RESERVED: u32 = 16;

// How many numbers hold them: a base and a size each.
pub const RESERVED_NUMBERS: usize = 32;

// The ranges that the platform reserves, the base and the size of each in turn. Those past the count are ignored. C hands them over in this form, and
// `PastCountIgnored` of specs/Ignored.antt speaks of the numbers past the count.
#[derive(Clone, Copy)]
pub struct ReservedRanges {
    pub count: u32,
    pub numbers: [u64; RESERVED_NUMBERS],
}

// The numbers of the platform.
#[derive(Clone, Copy)]
pub struct Platform {
    pub window_base: u64,
    pub heap_base: u64,
    pub sinit_base: u64,
    pub dpr_base: u64,
    pub dpr_size: u64,
    pub acram_capacity: u64,
    pub vendor: u16,
    pub device: u16,
    pub revision: u16,
    pub reserved: ReservedRanges,
}

// What the launch finds and the policy is asked about: the pages of the MLE, where the window begins, where the policy file stands, and the flags
// and AcmVersion of the module.
#[derive(Clone, Copy)]
pub struct Found {
    pub image: Image,
    pub window_base: u64,
    pub policy_file: Range,
    pub flags: u64,
    pub acm_version: u64,
}

// A permission: where the pages of the MLE are found, the list that permits, none under ANY, and the digest of the pages.
#[derive(Clone, Copy)]
pub struct Permission {
    pub image: Image,
    pub list: Option<u32>,
    pub digest: [u8; 32],
}

// A refusal, and what it shows of the digest of the pages: on 29 the digest, else zeros.
#[derive(Clone, Copy)]
pub struct Refused {
    pub refusal: Refusal,
    pub measurement: [u8; 32],
}

impl From<Refusal> for Refused {
    ghost from_gives = { λ r x. x ≡ early r };

    // By a rule that is tried before the image is hashed.
    fn from(refusal: Refusal) -> Refused {
        Refused {
            refusal,
            measurement: [0u8; 32],
        }
    }
}

// What is lent for reading, and the numbers of the platform.
#[derive(Clone, Copy)]
pub(crate) struct Lent<'a> {
    pub(crate) window: &'a [u8],
    pub(crate) heap: &'a [u8],
    pub(crate) sinit: &'a [u8],
    pub(crate) policy_record: &'a [u8],
    pub(crate) stm: &'a [u8],
    pub(crate) platform: Platform,
}

// All rules, for a page list of so many places.
fn judge(lent: &Lent, places: usize) -> Result<Permission, Refused>
    ensures { outcome_shown result ≡ outcome_of (input lent.now places) }
{
    let found = find(lent, places)?;
    decide(lent, found)
}

// The answer of a permission.
fn permitted(p: Permission) -> Answer
    ensures { result ≡ (permitted_shown p).answer }
{
    let Permission {
        image,
        list,
        digest,
    } = p;
    Answer {
        number: 0,
        pages: image.count,
        list: list.unwrap_or(NO_LIST),
        place: 0,
        digest,
    }
}

// The answer for what is lent, and on permission the addresses of the pages in the first places of the page list. `measurement` gets the digest of
// the pages, on 29 too, and zeros on every other refusal.
pub fn check_measured<'a>(
    window: &'a [u8],
    heap: &'a [u8],
    sinit: &'a [u8],
    record: &'a [u8],
    stm: &'a [u8],
    platform: Platform,
    pages: &mut [u64],
    measurement: &mut [u8; 32],
) -> Answer
    ensures answer { result ≡ answer_of (input_of window.now heap.now sinit.now «record».now stm.now platform (length pages.old)) }
    ensures places { pages.new ≡ places_of (input_of window.now heap.now sinit.now «record».now stm.now platform (length pages.old)) pages.old }
    ensures measurement { measurement.new ≡ measurement_of (input_of window.now heap.now sinit.now «record».now stm.now platform (length pages.old)) }
{
    let lent = Lent {
        window,
        heap,
        sinit,
        policy_record: record,
        stm,
        platform,
    };
    match judge(&lent, pages.len()) {
        Ok(permission) => {
            mle::write_pages(window, permission.image, pages);
            let digest = permission.digest;
            *measurement = digest;
            permitted(permission)
        }
        Err(refused) => {
            let shown = refused.measurement;
            *measurement = shown;
            Answer::from(refused.refusal)
        }
    }
}

// The same without the measurement.
pub fn check(
    window: &[u8],
    heap: &[u8],
    sinit: &[u8],
    record: &[u8],
    stm: &[u8],
    platform: Platform,
    pages: &mut [u64],
) -> Answer
    ensures answer { result ≡ answer_of (input_of window.now heap.now sinit.now «record».now stm.now platform (length pages.old)) }
    ensures places { pages.new ≡ places_of (input_of window.now heap.now sinit.now «record».now stm.now platform (length pages.old)) pages.old }
{
    let mut shown = [0u8; 32];
    check_measured(
        window, heap, sinit, record, stm, platform, pages, &mut shown,
    )
}
