// The SINIT module: the first of rules 6 to 11 that fails, or the values of the module that later rules read.
#![tactic(auto)]

mod header;
mod table;

ghost use Rattle.std.specs.Prelude.{◌≡◌};
ghost use Rattle.rules.specs.Rules.{first_failing};
ghost use Rattle.rules.specs.Refusal.{numbered, failing};
ghost use Rattle.sinit.specs.Rules.{rules, module_of};

use header::{entry_holds, gdt_holds, header_holds, place_holds, selector_holds};
use rules::{Refusal, require};
use table::{judge_table, values};

// What the platform says of its chipset.
#[derive(Clone, Copy)]
pub struct Chipset {
    pub vendor: u16,
    pub device: u16,
    pub revision: u16,
}

// The flags of the header, and numbers of the information table.
#[derive(Clone, Copy)]
pub struct ModuleData {
    pub flags: u64,
    pub os_sinit_data_ver: u64,
    pub min_mle_header_ver: u64,
    pub acm_version: u64,
}

// Rules 6 to 11, in this order. What a module is held to comes as numbers from three parts of the input, as the specification has it, and only these
// two functions take all of it.
fn judge(
    acm: &[u8],
    base: u64,
    capacity: u64,
    chipset: Chipset,
    version: u64,
) -> Result<(), Refusal>
    ensures { failing result ≡ first_failing (rules acm.now base capacity chipset version) }
{
    require(place_holds(acm, base, capacity), Refusal::ModulePlace)?;
    require(header_holds(acm), Refusal::ModuleHeader)?;
    require(gdt_holds(acm), Refusal::ModuleEntry)?;
    require(entry_holds(acm), Refusal::ModuleEntry)?;
    require(selector_holds(acm), Refusal::ModuleEntry)?;
    judge_table(acm, chipset, version)
}

// The values of the module at a base, under a capacity of the ACRAM, for a chipset and a version of OsSinitData, or the first of rules 6 to 11 that
// fails.
#[tactic(auto, unfolding(crate::specs::Rules::module_of, rules::specs::Rules::answer_for))]
pub fn read(
    acm: &[u8],
    base: u64,
    capacity: u64,
    chipset: Chipset,
    version: u64,
) -> Result<ModuleData, Refusal>
    ensures { numbered result ≡ module_of acm.now base capacity chipset version }
{
    judge(acm, base, capacity, chipset, version)?;
    Ok(values(acm))
}
