// What the policy decides, rules 23 to 29: the policy record, the policy file and its lists. The image is hashed once, where every rule before has
// passed.
ghost use Rattle.std.specs.Prelude.{◌≡◌};
ghost use Rattle.answer.specs.Answer.{no_list};
ghost use Rattle.launch.specs.Inner as spec;

use crate::{Found, Lent, Permission, Refused};
use decision::LaunchCriteria;
use policy_record::PolicyType;
use rules::{Refusal, require};

// Rule 29, by the policy file.
fn by_file(lent: &Lent, file: &[u8], f: Found) -> Result<Permission, Refused>
    ensures { spec.outcome_shown result ≡ spec.file_stage lent.now.window.now file.now lent.now.policy_record.now lent.now.stm.now f }
{
    let image = f.image;
    let digest = mle::digest(lent.window, image);
    let criteria = LaunchCriteria {
        digest,
        acm_version: f.acm_version,
        stm: lent.stm,
        policy_record: lent.policy_record,
    };
    let list = decision::lowest_permitting(file, &criteria);
    if list.is_none() {
        return Err(Refused {
            refusal: Refusal::NoList,
            measurement: digest,
        });
    }
    Ok(Permission {
        image,
        list,
        digest,
    })
}

// Rules 26 to 29.
fn by_lists(lent: &Lent, f: Found) -> Result<Permission, Refused>
    ensures { spec.outcome_shown result ≡ spec.list_stage lent.now.window.now lent.now.policy_record.now lent.now.stm.now f }
{
    let range = f.policy_file;
    require(
        decision::file_placed(lent.window, f.window_base, range.base, range.size),
        Refusal::PolicyPlace,
    )?;
    let file = decision::file(lent.window, f.window_base, range.base, range.size);
    decision::judge_file(file, lent.policy_record)?;
    by_file(lent, file, f)
}

// Under ANY every image is permitted.
fn by_any(window: &[u8], f: Found) -> Permission
    ensures { spec.permitted_shown result ≡ spec.permission window.now f no_list }
{
    let image = f.image;
    Permission {
        image,
        list: None,
        digest: mle::digest(window, image),
    }
}

// Rules 23 to 25, and 26 to 29 under LIST.
pub(crate) fn decide(lent: &Lent, f: Found) -> Result<Permission, Refused>
    ensures { spec.outcome_shown result ≡ spec.decide_stage lent.now.window.now lent.now.policy_record.now lent.now.stm.now f }
{
    match policy_record::kind(lent.policy_record, f.flags, f.acm_version)? {
        PolicyType::Any => Ok(by_any(lent.window, f)),
        PolicyType::List => by_lists(lent, f),
    }
}
