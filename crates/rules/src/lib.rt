// Rules in the order they are tried, and what is refused by each.
#![tactic(auto)]

mod refusal;

ghost use Rattle.std.specs.Prelude.{◌≡◌, cond, Ok, Err};

pub use refusal::Refusal;

// Goes on where a rule holds, and stops with its refusal where it fails.
pub fn require(holds: bool, refusal: Refusal) -> Result<(), Refusal>
    ensures { result ≡ cond holds (Ok tt) (Err refusal) }
{
    if holds { Ok(()) } else { Err(refusal) }
}
