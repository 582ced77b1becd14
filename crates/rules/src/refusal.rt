// What the check refuses, by the rule that fails: the number of each rule, the place that goes with 27, and the answer. 26 and 27 stand a second time
// where C and the programs show them.
ghost use Rattle.std.specs.Prelude.{◌≡◌};
ghost use Rattle.answer.specs.Answer as answer_spec;
ghost use Rattle.rules.specs.Refusal as spec;

use answer::{Answer, refused};

// The rule that fails first. Where the policy file is not of the grammar, the place is the offset of the first field at fault.
#[derive(Clone, Copy, PartialEq, Eq)]
pub enum Refusal {
    Limits,
    HeapParts,
    OsSinitData,
    HeapElements,
    Pmr,
    ModulePlace,
    ModuleHeader,
    ModuleEntry,
    ModuleTable,
    Chipset,
    OsSinitDataVersion,
    MleSize,
    PageList,
    EntryBits,
    OutsideWindow,
    NotAscending,
    ForbiddenRange,
    TablePages,
    LinearGap,
    NotProtected,
    PageCount,
    MleHeader,
    PolicyRecord,
    NotProduction,
    ModuleVersion,
    PolicyPlace,
    PolicyGrammar { place: u32 },
    PolicyHash,
    NoList,
    Capture,
    PolicyDescription,
    PolicySize,
    PolicyRoom,
}

impl Refusal {
    // The number of the rule.
    pub fn number(self) -> u32
        ensures { result ≡ spec.number self }
    {
        match self {
            Refusal::Limits => 1,
            Refusal::HeapParts => 2,
            Refusal::OsSinitData => 3,
            Refusal::HeapElements => 4,
            Refusal::Pmr => 5,
            Refusal::ModulePlace => 6,
            Refusal::ModuleHeader => 7,
            Refusal::ModuleEntry => 8,
            Refusal::ModuleTable => 9,
            Refusal::Chipset => 10,
            Refusal::OsSinitDataVersion => 11,
            Refusal::MleSize => 12,
            Refusal::PageList => 13,
            Refusal::EntryBits => 14,
            Refusal::OutsideWindow => 15,
            Refusal::NotAscending => 16,
            Refusal::ForbiddenRange => 17,
            Refusal::TablePages => 18,
            Refusal::LinearGap => 19,
            Refusal::NotProtected => 20,
            Refusal::PageCount => 21,
            Refusal::MleHeader => 22,
            Refusal::PolicyRecord => 23,
            Refusal::NotProduction => 24,
            Refusal::ModuleVersion => 25,
            Refusal::PolicyPlace => 26,
            Refusal::PolicyGrammar { .. } => 27,
            Refusal::PolicyHash => 28,
            Refusal::NoList => 29,
            Refusal::Capture => 30,
            Refusal::PolicyDescription => 31,
            Refusal::PolicySize => 32,
            Refusal::PolicyRoom => 33,
        }
    }

    // The offset of the first field at fault in the policy file where it is not of the grammar, else 0.
    pub fn place(self) -> u32
        ensures { result ≡ spec.place self }
    {
        match self {
            Refusal::PolicyGrammar { place } => place,
            _ => 0,
        }
    }
}

// The conversion stands here, so that `answer` has no crate below it and the text of an answer depends on no rule.
impl From<Refusal> for Answer {
    ghost from_gives = { λ r a. a ≡ answer_spec.refused (spec.number r) (spec.place r) };

    fn from(refusal: Refusal) -> Answer {
        refused(refusal.number(), refusal.place())
    }
}
