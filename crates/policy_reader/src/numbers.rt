// Numbers of a string.
ghost use Rattle.std.specs.Prelude.{◌≡◌, ◌<◌, ◌^◌};
ghost use Rattle.field.specs.Field.{number_at};

// The number of `width` bytes at `at`; 0 where they are not all there.
pub(crate) fn number(s: &[u8], at: usize, width: usize) -> usize
    ensures { (result ≡ number_at s.now at width) × (result < 256 ^ width) }
{
    field::number_or_zero(s, at, width) as usize
}
