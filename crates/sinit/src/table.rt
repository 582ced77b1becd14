// The information table and the chipset list, rules 9, 10 and 11, and the values that later rules read.
ghost use Rattle.std.specs.Prelude.{◌≡◌, ◌+◌, ◌^◌, ◌<◌, ◌≤◌};
ghost use Rattle.field.specs.Field.{number_at};
ghost use Rattle.rules.specs.Rules.{first_failing};
ghost use Rattle.rules.specs.Refusal.{failing};
ghost use Rattle.sinit.specs.Module.{E, chipset_list, os_sinit_data_ver, count};
ghost use Rattle.sinit.specs.Rules as spec;
ghost use Rattle.rules.specs.Rules.{all};
ghost use Rattle.sinit.specs.Rules.{table, list, revision_matches, match, listed, supported, table_rules, values_of};

use crate::header::header_end;
use crate::{Chipset, ModuleData};
use field::number_or_zero;
use range::Range;
use rules::{Refusal, require};

const TABLE_SIZE: u64 = 44;

const UUID: [u8; 16] = [
    0xAA, 0x3A, 0xC0, 0x7F, 0xA7, 0x46, 0xDB, 0x18, 0x2E, 0xAC, 0x69, 0x8F, 0x8D, 0x41, 0x7F, 0x5A,
];

const SINIT_TABLE: u64 = 1;

const COUNT_SIZE: u64 = 4;

const MOST_ENTRIES: u64 = 64;

const ENTRY_SIZE: u64 = 16;

// Whether n bytes at an offset are inside the module.
#[tactic(auto, unfolding(crate::specs::Rules::inside))]
fn inside(acm: &[u8], at: u64, n: u64) -> bool
    ensures { result ≡ spec.inside acm.now at n }
{
    let part = Range { base: at, size: n };
    let whole = Range {
        base: 0,
        size: acm.len() as u64,
    };
    range::inside(part, whole)
}

// The number of `width` bytes at an offset in the information table.
fn table_number(acm: &[u8], at: usize, width: usize) -> u64
    requires { at ≤ 44 }
    ensures { (result ≡ number_at acm.now (E acm.now + at) width) × (result < 256 ^ width) }
{
    let start = header_end(acm) as usize;
    number_or_zero(acm, start + at, width)
}

// The offset of the chipset list.
fn list_offset(acm: &[u8]) -> u64
    ensures { (result ≡ chipset_list acm.now) × (result < 2 ^ 32) }
{
    table_number(acm, 20, 4)
}

// How many entries the chipset list counts.
fn list_count(acm: &[u8]) -> u64
    ensures { (result ≡ count acm.now) × (result < 2 ^ 32) }
{
    let start = list_offset(acm) as usize;
    number_or_zero(acm, start, 4)
}

fn os_sinit_data_ver(acm: &[u8]) -> u64
    ensures { result ≡ os_sinit_data_ver acm.now }
{
    table_number(acm, 24, 4)
}

// Rule 9: the information table.
#[tactic(auto, unfolding(crate::specs::Rules::table, rules::specs::Rules::all))]
fn table_holds(acm: &[u8]) -> bool
    ensures { result ≡ all (table acm.now) }
{
    let start = header_end(acm);
    if !inside(acm, start, TABLE_SIZE) {
        return false;
    }
    if !field::marked(acm, start as usize, &UUID) {
        return false;
    }
    if table_number(acm, 16, 1) != SINIT_TABLE {
        return false;
    }
    TABLE_SIZE <= table_number(acm, 18, 2)
}

// Rule 9: the chipset list.
#[tactic(auto, unfolding(crate::specs::Rules::list, rules::specs::Rules::all))]
fn list_holds(acm: &[u8]) -> bool
    ensures { result ≡ all (list acm.now) }
{
    let start = list_offset(acm);
    if !inside(acm, start, COUNT_SIZE) {
        return false;
    }
    let count = list_count(acm);
    if MOST_ENTRIES < count {
        return false;
    }
    inside(acm, start + COUNT_SIZE, ENTRY_SIZE * count)
}

// Whether the revision of an entry matches that of the chipset; flag bit 0 says how they are compared.
#[tactic(auto, unfolding(crate::specs::Rules::revision_matches))]
fn revision_matches(flags: u64, revision: u64, chipset: u64) -> bool
    ensures { result ≡ revision_matches flags revision chipset }
{
    if flags & 1 == 0 {
        return revision == chipset;
    }
    revision & chipset != 0
}

// Whether the entry at an offset matches the chipset.
fn entry_matches(acm: &[u8], at: usize, chipset: Chipset) -> bool
    requires { at < 2 ^ 63 }
    ensures { result ≡ all (match acm.now chipset at) }
{
    if number_or_zero(acm, at + 4, 2) != chipset.vendor as u64 {
        return false;
    }
    if number_or_zero(acm, at + 6, 2) != chipset.device as u64 {
        return false;
    }
    let flags = number_or_zero(acm, at, 4);
    let revision = number_or_zero(acm, at + 8, 2);
    revision_matches(flags, revision, chipset.revision as u64)
}

// Rule 10: some entry of the list matches the chipset.
fn chipset_listed(acm: &[u8], chipset: Chipset) -> bool
    ensures { result ≡ listed acm.now chipset }
{
    let start = list_offset(acm);
    let count = list_count(acm);
    (0..count).any(|i| {
        let at = start + COUNT_SIZE + ENTRY_SIZE * i;
        entry_matches(acm, at as usize, chipset)
    })
}

// Rule 11: the version of OsSinitData.
#[tactic(auto, unfolding(crate::specs::Rules::supported))]
fn version_supported(acm: &[u8], version: u64) -> bool
    ensures { result ≡ supported acm.now version }
{
    version <= os_sinit_data_ver(acm)
}

// Rules 9 to 11, in this order.
pub(crate) fn judge_table(acm: &[u8], chipset: Chipset, version: u64) -> Result<(), Refusal>
    ensures { failing result ≡ first_failing (table_rules acm.now chipset version) }
{
    require(table_holds(acm), Refusal::ModuleTable)?;
    require(list_holds(acm), Refusal::ModuleTable)?;
    require(chipset_listed(acm, chipset), Refusal::Chipset)?;
    require(version_supported(acm, version), Refusal::OsSinitDataVersion)
}

// The values of the module that later rules read.
pub(crate) fn values(acm: &[u8]) -> ModuleData
    ensures { result ≡ values_of acm.now }
{
    ModuleData {
        flags: number_or_zero(acm, 14, 2),
        os_sinit_data_ver: os_sinit_data_ver(acm),
        min_mle_header_ver: table_number(acm, 28, 4),
        acm_version: table_number(acm, 36, 1),
    }
}
