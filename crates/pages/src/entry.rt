// An entry of 64 bits: its present bit, its address and the bits that its kind reserves, by shifts and masks.
ghost use Rattle.std.specs.Prelude.{◌≡◌};
ghost use Rattle.pages.specs.Entry.{present_of, address_of, reserved_clear};

use crate::Kind;

#[tactic(auto, unfolding(crate::specs::Entry::present_of))]
pub(crate) fn present(e: u64) -> bool
    ensures { result ≡ present_of e }
{
    e & 1 == 1
}

#[tactic(auto, unfolding(crate::specs::Entry::address_of))]
pub fn address(e: u64) -> u64
    ensures { result ≡ address_of e }
{
    ((e >> 12) & 0xFF_FFFF_FFFF) << 12
}

// Whether the bits that the kind reserves are 0.
#[tactic(auto, unfolding(crate::specs::Entry::reserved_clear))]
pub(crate) fn reserved_clear(kind: Kind, e: u64) -> bool
    ensures { result ≡ reserved_clear kind e }
{
    if e >> 52 != 0 {
        return false;
    }
    match kind {
        Kind::Pointer => (e >> 1) & 3 == 0 && (e >> 5) & 15 == 0,
        Kind::Directory => (e >> 7) & 1 == 0,
        Kind::Page => true,
    }
}
