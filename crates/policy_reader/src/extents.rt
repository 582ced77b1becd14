// Extents some bytes on.
ghost use Rattle.std.specs.Prelude.{◌≡◌, ◌+◌, ◌<◌, ◌^◌};
ghost use Rattle.policy_reader.specs.Inner as spec;

use field::Fault;

// What is read n bytes on.
pub(crate) fn further(n: usize, x: Result<usize, Fault>) -> Result<usize, Fault>
    requires { n + spec.end x < 2 ^ 64 }
    ensures { result ≡ spec.further n x }
{
    x.map(|k| n + k).map_err(|f| Fault { at: n + f.at })
}
