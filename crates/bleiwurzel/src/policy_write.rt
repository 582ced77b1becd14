// The writer of policy files.
ghost use Rattle.std.specs.Prelude.{◌≡◌, [], ◌∷◌};
ghost use Rattle.policy_writer.specs.Decode.{described};
ghost use Rattle.rules.specs.Refusal.{number_of};
ghost use Rattle.policy_writer.specs.Answers.{length_of, record_of, buffer_for};
ghost use Rattle.policy_writer.specs.Writing.{answer};

// Writes the file that numbers and bodies describe: 0, 31, 32 or 33. `length` gets its length, and `record` the 38 bytes of `fields` and then PolicyHash;
// on a refusal both get zeros, and `file` stays as it is.
#[unsafe(no_mangle)]
pub extern "C" fn bleiwurzel_policy_write(
    numbers: &[u32],
    bodies: &[u8],
    fields: &[u8; 38],
    file: &mut [u8],
    length: &mut [u64; 1],
    record: &mut [u8; 70],
) -> u32
    ensures number { result ≡ number_of (answer numbers.now bodies.now fields.now file.old) }
    ensures file { file.new ≡ buffer_for file.old (described numbers.now bodies.now) }
    ensures length { length.new ≡ length_of (answer numbers.now bodies.now fields.now file.old) ∷ [] }
    ensures record { «record».new ≡ record_of (answer numbers.now bodies.now fields.now file.old) }
{
    let asked = *fields;
    match policy_writer::write(numbers, bodies, asked, file) {
        Ok(written) => {
            let whole = written.record;
            *length = [written.length as u64];
            *record = whole;
            0
        }
        Err(refusal) => {
            *length = [0];
            *record = [0u8; 70];
            refusal.number()
        }
    }
}
